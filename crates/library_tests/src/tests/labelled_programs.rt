// Labelled programs with their brains and places, written out.
use ant_asm::{Address, Assembled, assemble};
use ant_base::LONGEST;
use brain_read::{Instr, Side};
use std::alloc::Global;
use std::process::Abort;

/// A text, its instructions, and the address of each, which has at most two numbers.
type Program = (&'static [u8], &'static [Instr], &'static [&'static [u32]]);

const PROGRAMS: [Program; 6] = [
    (
        b"block back done\nTurn Left next\nTurn Left next\nTurn Left done\nend\ngo:\nMove go stuck\nstuck:\nuse back go\n",
        &[
            Instr::Move { yes: 0, no: 1 },
            Instr::Turn {
                side: Side::Left,
                next: 2,
            },
            Instr::Turn {
                side: Side::Left,
                next: 3,
            },
            Instr::Turn {
                side: Side::Left,
                next: 0,
            },
        ],
        &[&[0], &[1, 0], &[1, 1], &[1, 2]],
    ),
    (b"Drop next\n", &[Instr::Drop { next: 0 }], &[&[0]]),
    (
        b"Move done done\ndone:\n",
        &[Instr::Move { yes: 0, no: 0 }],
        &[&[0]],
    ),
    (
        b"block b p\nx:\nMove x p\nDrop next\nend\nblock c q\nuse b q\nend\nx:\nuse c x\nuse b next\nPickUp x next\n",
        &[
            Instr::Move { yes: 0, no: 0 },
            Instr::Drop { next: 2 },
            Instr::Move { yes: 2, no: 4 },
            Instr::Drop { next: 4 },
            Instr::PickUp { yes: 0, no: 0 },
        ],
        &[&[0, 0, 0], &[0, 0, 1], &[1, 0], &[1, 1], &[2]],
    ),
    (
        b"block a\nDrop last\nlast:\nend\nuse a\nuse a\n",
        &[Instr::Drop { next: 1 }, Instr::Drop { next: 0 }],
        &[&[0, 0], &[1, 0]],
    ),
    (
        b"top:\nFlip 2 top next\nPickUp top next\nTurn Right next\nMark 3 top\nUnmark 4 top\n",
        &[
            Instr::Flip {
                bound: 2,
                yes: 0,
                no: 1,
            },
            Instr::PickUp { yes: 0, no: 2 },
            Instr::Turn {
                side: Side::Right,
                next: 3,
            },
            Instr::Mark { mark: 3, next: 0 },
            Instr::Unmark { mark: 4, next: 0 },
        ],
        &[&[0], &[1], &[2], &[3], &[4]],
    ),
];

// Each text is assembled to these instructions with these addresses.
fn check_programs<R: Abort>(rt: &R, alloc: Global, rows: &[Program]) {
    for (text, list, places) in rows {
        assert!(rt; text.len() <= LONGEST);
        match assemble(alloc, text) {
            Ok(made) => check_program(rt, &made, list, places),
            Err(_) => assert!(rt; false),
        }
    }
}

fn check_program<R: Abort>(rt: &R, made: &Assembled, list: &[Instr], places: &[&[u32]]) {
    assert!(rt; made.brain.len() as usize == list.len());
    assert!(rt; made.places.len() == places.len());
    assert!(rt; list.len() == places.len());
    assert!(rt; list.len() <= 10000);
    for i in 0..list.len() {
        assert!(rt; made.brain.at(i as u16) == list[i]);
        check_address(rt, made.places.item(i), places[i]);
    }
}

fn check_address<R: Abort>(rt: &R, address: &Address, steps: &[u32]) {
    assert!(rt; address.len() == steps.len());
    for i in 0..steps.len() {
        assert!(rt; address.item(i) == steps[i]);
    }
}

#[test]
fn each_program_has_its_brain_and_its_places(rt: HostRuntime) {
    check_programs(&rt, rt.alloc(), &PROGRAMS);
}
