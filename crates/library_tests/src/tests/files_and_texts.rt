// What no clause says: that calls succeed, exact bytes, and real files.
use ant_base::{
    Calls, Each, Failed, FetchFault, FileShelf, Files, Gate, Layout, MemShelf, MemSink, NoGate,
    NumberedTexts, OutOfMemory, Shelf, Sink, StreamSink, layout,
};
use std::alloc::{AllocError, Global};
use std::fs;
use std::io::BufWriter;

// A sink with this room, whose pushes with these numbers fail.
fn sink_with(alloc: Global, room: u64, failing: &[u64]) -> Result<MemSink, OutOfMemory> {
    let mut calls = Calls::new(alloc);
    for number in failing {
        calls.add(*number)?;
    }
    MemSink::with_room(alloc, room, calls)
}

#[test]
fn a_sink_holds_what_fits(rt: HostRuntime) {
    let text = b"random seed: 12345\n";
    for room in 0..20 {
        let mut sink = sink_with(rt.alloc(), room, &[]).expect(&rt, "memory");
        let pushed = layout!("random seed: ", 12345u32, "\n").push_to(&mut sink);
        assert!(rt; pushed.is_ok() == (room == 19));
        assert!(rt; sink.held() == &text[..room as usize]);
    }
}

#[test]
fn a_push_fails_by_its_number_or_for_want_of_room(rt: HostRuntime) {
    let mut sink = sink_with(rt.alloc(), 6, &[4, 2]).expect(&rt, "memory");
    for piece in ["a", "b", "c", "x", "d", "efgh", "", "i"] {
        let pushed = sink.push(piece.as_bytes());
        assert!(rt; pushed.is_ok() == sink.held().ends_with(piece.as_bytes()));
    }
    assert!(rt; sink.held() == b"acdefg".as_slice());
}

// Three squares.
#[derive(Clone, Copy)]
struct Squares;

impl NumberedTexts for Squares {
    ghost use Rattle.std.specs.Prelude.{◌*◌, ◌++◌, codes, decimal};

    ghost count = { λ _. 3 };

    ghost part = { λ _ at. decimal (at * at) ++ codes ";" };

    fn count(&self) -> usize {
        3
    }

    fn push_part<K: Sink>(&self, at: usize, sink: &mut K) -> Result<(), Failed> {
        layout!(at * at, ";").push_to(sink)
    }
}

// Whether a value is printed as this text.
fn prints<L: Layout>(alloc: Global, value: &L, text: &str) -> bool {
    match sink_with(alloc, 20, &[]) {
        Ok(mut sink) => value.push_to(&mut sink).is_ok() && sink.held() == text.as_bytes(),
        Err(_) => false,
    }
}

#[test]
fn values_print_as_their_texts(rt: HostRuntime) {
    let alloc = rt.alloc();
    assert!(rt; prints(alloc, &0u8, "0"));
    assert!(rt; prints(alloc, &65535u16, "65535"));
    assert!(rt; prints(alloc, &4294967295u32, "4294967295"));
    assert!(rt; prints(alloc, &u64::MAX, "18446744073709551615"));
    assert!(rt; prints(alloc, &("of ", 10usize), "of 10"));
    assert!(rt; prints(alloc, &Some("some"), "some"));
    assert!(rt; prints(alloc, &None::<u8>, ""));
    assert!(rt; prints(alloc, &Each(Squares), "0;1;4;"));
}

// Whether a fetch gives this content.
fn gives<S: Shelf>(shelf: &mut S, alloc: Global, name: &str, content: &str) -> bool {
    match shelf.fetch(alloc, name) {
        Ok(bytes) => bytes.as_slice() == content.as_bytes(),
        Err(_) => false,
    }
}

// Whether a fetch fails.
fn fails<S: Shelf>(shelf: &mut S, alloc: Global, name: &str) -> bool {
    matches!(shelf.fetch(alloc, name), Err(FetchFault::Failed))
}

// A shelf of three files, two of them with the same name, whose second fetch fails.
fn shelf_of_three(alloc: Global) -> Result<MemShelf, OutOfMemory> {
    let mut files = Files::new(alloc);
    for (name, bytes) in [("w", "first"), ("", "empty name"), ("w", "second")] {
        files.add(name, bytes.as_bytes())?;
    }
    let mut failing = Calls::new(alloc);
    failing.add(2)?;
    Ok(MemShelf::new(files, failing))
}

#[test]
fn a_shelf_in_memory_gives_what_was_added_first(rt: HostRuntime) {
    let alloc = rt.alloc();
    let mut shelf = shelf_of_three(alloc).expect(&rt, "memory");
    assert!(rt; gives(&mut shelf, alloc, "w", "first"));
    // call 2 fails, and this name is missing
    for name in ["w", "r"] {
        assert!(rt; fails(&mut shelf, alloc, name));
    }
    assert!(rt; gives(&mut shelf, alloc, "", "empty name"));
}

// This many bytes.
fn content_of(alloc: Global, length: usize) -> Result<Vec<u8>, AllocError> {
    vec![in alloc; b'x'; length]
}

// The length of what a fetch gives, if it isn't too long.
fn length_of<S: Shelf>(shelf: &mut S, alloc: Global, name: &str) -> Result<usize, FetchFault> {
    shelf.fetch(alloc, name).map(|content| content.len())
}

// Whether the first file is returned whole and the second is too long.
fn stops_after_the_longest<S: Shelf>(shelf: &mut S, alloc: Global) -> bool {
    length_of(shelf, alloc, "longest") == Ok(4194304)
        && length_of(shelf, alloc, "longer") == Err(FetchFault::TooLong)
}

#[test]
fn a_shelf_in_memory_gives_4194304_bytes(rt: HostRuntime) {
    let alloc = rt.alloc();
    let mut files = Files::new(alloc);
    for (name, length) in [("longest", 4194304), ("longer", 4194305)] {
        let bytes = content_of(alloc, length).expect(&rt, "memory");
        files.add(name, &bytes).expect(&rt, "memory");
    }
    let mut shelf = MemShelf::new(files, Calls::new(alloc));
    assert!(rt; stops_after_the_longest(&mut shelf, alloc));
}

// Whether a file could be made.
fn is_written<R: fs::Files>(rt: &R, name: &str, bytes: &[u8]) -> bool {
    fs::write(rt, name, bytes).is_ok()
}

// Whether a file could be removed.
fn is_removed<R: fs::Files>(rt: &R, name: &str) -> bool {
    fs::remove_file(rt, name).is_ok()
}

#[test]
fn a_shelf_of_files_gives_4194304_bytes(rt: HostRuntime) {
    let alloc = rt.alloc();
    for (name, length) in [("longest", 4194304), ("longer", 4194305)] {
        let bytes = content_of(alloc, length).expect(&rt, "memory");
        assert!(rt; is_written(&rt, name, &bytes));
    }
    let mut shelf = FileShelf::new(&rt);
    assert!(rt; stops_after_the_longest(&mut shelf, alloc));
    assert!(rt; shelf.faults() == 0);
    assert!(rt; is_removed(&rt, "longest"));
    assert!(rt; is_removed(&rt, "longer"));
}

#[test]
fn a_shelf_of_files_reads_them(rt: HostRuntime) {
    let alloc = rt.alloc();
    let mut shelf = FileShelf::new(&rt);
    assert!(rt; is_written(&rt, "-w", b"3\n3\n"));
    // a second time too
    for _ in 0..2 {
        assert!(rt; gives(&mut shelf, alloc, "-w", "3\n3\n"));
    }
    assert!(rt; shelf.faults() == 0);
    // no such file, and a folder
    for name in ["none", "."] {
        assert!(rt; fails(&mut shelf, alloc, name));
    }
    assert!(rt; shelf.faults() == 2);
    assert!(rt; is_removed(&rt, "-w"));
}

#[test]
fn a_name_is_taken_as_it_stands(rt: HostRuntime) {
    let alloc = rt.alloc();
    let mut shelf = FileShelf::new(&rt);
    for (name, text) in [("named", "one"), ("named ", "two\n"), (" named", "")] {
        assert!(rt; is_written(&rt, name, text.as_bytes()));
        assert!(rt; gives(&mut shelf, alloc, name, text));
    }
    assert!(rt; shelf.faults() == 0);
    assert!(rt; is_removed(&rt, "named"));
    assert!(rt; fails(&mut shelf, alloc, "named"));
    assert!(rt; gives(&mut shelf, alloc, "named ", "two\n"));
    assert!(rt; is_removed(&rt, "named "));
    assert!(rt; is_removed(&rt, " named"));
}

#[test]
fn a_dash_alone_is_standard_input(rt: HostRuntime) {
    let alloc = rt.alloc();
    let mut shelf = FileShelf::new(&rt);
    assert!(rt; is_written(&rt, "-", b"a file"));
    assert!(rt; !gives(&mut shelf, alloc, "-", "a file"));
    assert!(rt; gives(&mut shelf, alloc, "./-", "a file"));
    assert!(rt; is_removed(&rt, "-"));
}

#[test]
fn a_file_holds_what_was_pushed(rt: HostRuntime) {
    let alloc = rt.alloc();
    let file = fs::create(&rt, "pushed").expect(&rt, "made");
    let mut sink = StreamSink::new(BufWriter::new(alloc, file).expect(&rt, "memory"));
    let mut shelf = FileShelf::new(&rt);
    // an LF at the end of a piece flushes
    assert!(rt; sink.push(b"one\n").is_ok());
    assert!(rt; gives(&mut shelf, alloc, "pushed", "one\n"));
    assert!(rt; sink.push(b"two").is_ok());
    assert!(rt; sink.push(b"\n").is_ok());
    assert!(rt; gives(&mut shelf, alloc, "pushed", "one\ntwo\n"));
    assert!(rt; is_removed(&rt, "pushed"));
}

// A gate that only its own caller has passed.
fn pass<G: Gate>(gate: &G) {
    gate.before_look(0, 7);
}

#[test]
fn no_gate_returns() {
    pass(&NoGate);
}
