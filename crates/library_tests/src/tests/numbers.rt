// The task's own numbers of seed 12345, each call once if it succeeds, and the decimal texts of numbers.
ghost use Rattle.std.specs.Prelude.{◌≡◌, ◌-◌, ◌^◌, ◌<◌};

use ant_base::{Calls, MemSink, push_number};
use ant_random::{Steps, Stream};
use std::alloc::Global;
use std::marker::Brand;
use std::process::Abort;
use std::sync::ledger::{Blank, Ledger};
use std::test::Fail;

const NUMBERS: [u32; 10] = [7193, 2932, 10386, 5575, 100, 15976, 430, 9740, 9449, 1636];

// Asserts the next number of a stream at this place, and of one that jumped there.
fn check_next<R: Abort>(rt: &R, stream: &mut Stream, place: u64, number: u32) {
    assert_eq!(rt; stream.place(), place);
    assert!(rt; place < 10);
    let mut jumped = Stream::at_place_uncounted(stream.seed(), place);
    assert_eq!(rt; jumped.place(), place);
    let drawn = (stream.draw(16384), jumped.draw(16384));
    assert_eq!(rt;
        drawn,
        (number, number),
        "drawn, and after a jump, at {place}"
    );
}

#[test]
fn first_ten_numbers_are_those_of_the_task(rt: HostRuntime) {
    let mut stream = Stream::from_seed(12345);
    assert_eq!(rt; stream.seed(), 12345);
    for (place, number) in NUMBERS.iter().enumerate() {
        check_next(&rt, &mut stream, place as u64, *number);
    }
    assert_eq!(rt; stream.place(), 10);
}

fn two_numbers_at<L: Ledger>(seed: u32, place: u64, blank: Blank) -> (u32, u32)
    requires name { blank.name ≡ L.name }
    requires parts { blank.parts ≡ L.parts }
    requires some { 0 < blank.parts }
    requires place { place < 2 ^ 63 - 2 }
{
    let mut steps = Steps::<L>::new(blank);
    let mut stream = Stream::at_place(seed, place, &mut steps);
    let first = stream.draw(16384);
    (first, stream.draw(16384))
}

#[test]
fn a_far_place_is_reached_at_once(rt: HostRuntime) {
    // the numbers repeat after 2^30 places
    for place in [1 << 30, 1 << 62] {
        let numbers = two_numbers_at::<Brand>(12345, place, Blank::new(1));
        assert_eq!(rt; numbers, (7193, 2932), "at {place}");
    }
}

// Numbers with their decimal texts: the least and the greatest, and those on each side of a power of ten and of two.
const DECIMALS: [(u64, &str); 6] = [
    (0, "0"),
    (9, "9"),
    (10, "10"),
    (4294967295, "4294967295"),
    (4294967296, "4294967296"),
    (18446744073709551615, "18446744073709551615"),
];

// Asserts the text that is pushed for a number.
fn check_pushed<R: Abort>(rt: &R, alloc: Global, number: u64, text: &str) -> Result<(), Fail> {
    let mut sink = MemSink::with_room(alloc, 20, Calls::new(alloc))?;
    let pushed = push_number(&mut sink, number);
    assert!(rt;
        pushed.is_ok() && sink.held() == text.as_bytes(),
        "{number}"
    );
    Ok(())
}

#[test]
fn numbers_are_pushed_in_decimal(rt: HostRuntime) -> Result<(), Fail> {
    for (number, text) in DECIMALS {
        check_pushed(&rt, rt.alloc(), number, text)?;
    }
    Ok(())
}
