// World texts with their worlds, written out.
use ant_base::{Calls, LONGEST, MemSink};
use cell_world::World;
use hex_geometry::Pos;
use std::alloc::Global;
use std::process::Abort;
use std::test::Fail;
use world_read::{read_world, write_world};

fn are_equal(a: &World, b: &World) -> bool {
    if a.width() != b.width() || a.height() != b.height() || a.ant_count() != b.ant_count() {
        return false;
    }
    for y in 0..a.height() {
        for x in 0..a.width() {
            let p = Pos { x, y };
            if a.cell(p) != b.cell(p) {
                return false;
            }
        }
    }
    for id in 0..a.ant_count() {
        if a.ant_place(id) != b.ant_place(id) {
            return false;
        }
    }
    true
}

// Texts that are spelled as worlds are written.
const CANONICAL: [&str; 8] = [
    "3\n3\n# # #\n # + #\n# # #\n",
    "4\n3\n# # # #\n # + . #\n# # # #\n",
    "4\n3\n# # # #\n # + 1 #\n# # # #\n",
    "5\n3\n# # # # #\n # + + - #\n# # # # #\n",
    "5\n5\n# # # # #\n # - - . #\n# - + - #\n # - - . #\n# # # # #\n",
    "7\n6\n# # # # # # #\n # . . . . . #\n# . . - # . #\n # - . + - # #\n# + . - - # #\n # # # # # # #\n",
    "6\n6\n# # # # # #\n # . + + # #\n# + . - + #\n # - + - . #\n# . - - . #\n # # # # # #\n",
    "4\n4\n# # # #\n # . . #\n# . . #\n # # # #\n",
];

// Asserts that the text written for a world is the text from which it was read, and is read as an equal world.
fn check_bytes<R: Abort>(
    rt: &R,
    alloc: Global,
    world: &World,
    written: &[u8],
    text: &str,
) -> Result<(), Fail> {
    assert_eq!(rt; written, text.as_bytes(), "at {text:?}");
    assert!(rt; written.len() <= LONGEST);
    let again = read_world(alloc, written)?;
    assert!(rt; are_equal(world, &again), "at {text:?}");
    Ok(())
}

// Asserts that the world of this text is written as this text.
fn check_written<R: Abort>(rt: &R, alloc: Global, text: &str) -> Result<(), Fail> {
    let bytes = text.as_bytes();
    assert!(rt; bytes.len() <= LONGEST);
    let world = read_world(alloc, bytes)?;
    let mut sink = MemSink::with_room(alloc, 100, Calls::new(alloc))?;
    write_world(&world, &mut sink)?;
    check_bytes(rt, alloc, &world, sink.held(), text)
}

#[test]
fn what_is_written_is_the_canonical_text_and_is_read_as_an_equal_world(
    rt: HostRuntime,
) -> Result<(), Fail> {
    for text in &CANONICAL {
        check_written(&rt, rt.alloc(), text)?;
    }
    Ok(())
}
