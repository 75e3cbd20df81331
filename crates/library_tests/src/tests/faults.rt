// What no clause says: each type that can be displayed is displayed whole, even its longest text.
use ant_asm::AsmFault;
use ant_base::{Failed, FetchFault, OutOfMemory};
use brain_read::BrainFault;
use break_view::BreakFault;
use command_words::Refused;
use line_tokens::{LineFault, Refusal};
use match_run::PlayFault;
use match_save::{AlreadyAt, SaveFault};
use std::alloc::Global;
use std::fmt;
use text_fault::{TextFault, TextStop};
use world_gen::GenFault;
use world_read::WorldFault;

// Whether a fault is displayed with this text.
fn says<F: fmt::Display>(alloc: Global, fault: &F, text: &str) -> bool {
    match format!(in alloc; "{fault}") {
        Ok(shown) => shown.as_str() == text,
        Err(_) => false,
    }
}

const LAST_STATE: BrainFault = BrainFault::NoSuchState {
    line: 4294967295,
    state: 18446744073709551615,
};

const LAST_CELL: WorldFault = WorldFault::BadCell {
    row: 511,
    column: 65535,
};

#[test]
fn faults_are_displayed(rt: HostRuntime) {
    let alloc = rt.alloc();
    let low = [
        says(alloc, &FetchFault::Failed, "not read"),
        says(alloc, &FetchFault::TooLong, "too long"),
        says(alloc, &Failed, "output failed"),
        says(alloc, &OutOfMemory, "out of memory"),
        says(alloc, &PlayFault::WriteFault, "output failed"),
        says(alloc, &PlayFault::OutOfMemory, "out of memory"),
        says(
            alloc,
            &GenFault::NoRoom { element: 13 },
            "no room for element 13",
        ),
        says(alloc, &AlreadyAt(60), "already at round 60"),
        says(alloc, &Refused { word: 42 }, "word 42 refused"),
    ];
    assert_eq!(rt; low, [true; 9]);
}

#[test]
fn faults_of_texts_are_displayed(rt: HostRuntime) {
    let alloc = rt.alloc();
    let token = Refusal {
        fault: LineFault::BadNumber,
        bad_byte: true,
    };
    let texts = [
        says(alloc, &LAST_CELL, "row 511: bad cell at column 65535"),
        says(
            alloc,
            &WorldFault::OpenRim { x: 2, y: 0 },
            "rim open at (2, 0)",
        ),
        says(
            alloc,
            &LAST_STATE,
            "line 4294967295: no such state 18446744073709551615",
        ),
        says(alloc, &token, "bad byte"),
        says(alloc, &token.fault, "bad number"),
        says(
            alloc,
            &AsmFault::WrongCount { line: 7 },
            "line 7: wrong number of labels",
        ),
        says(alloc, &SaveFault::BadLine { line: 3 }, "line 3: not a save"),
        says(
            alloc,
            &BreakFault::TooMany { line: 257 },
            "line 257: too many breaks",
        ),
        says(alloc, &TextStop::Refused(TextFault::TooLong), "too long"),
    ];
    assert_eq!(rt; texts, [true; 9]);
}
