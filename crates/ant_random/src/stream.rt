// The stream as callers see it: a seed and a place.
ghost use Rattle.std.specs.Prelude.{◌≡◌, ℕ, ◌+◌, ◌-◌, ◌*◌, ◌%◌, ◌^◌, ◌<◌, ◌≤◌};
ghost use Rattle.ant_random.specs.Stream.{SeedAndPlace, state_at, drawn};

use crate::jump::{Jump, next_state};
use crate::steps::Steps;
use std::marker::{Brand, Model};
use std::sync::ledger::{Blank, Ledger};

/// The stream of random numbers of one seed, at a place: the count of numbers drawn so far, from 0, below 2^63 (number
/// generation).
#[derive(Debug, Drop)]
pub struct Stream {
    seed: u32,
    place: u64,
    // 32 bits of the state four places later; the next number is read from them
    ahead: u32,
}

impl Model for Stream {
    ghost Value = { SeedAndPlace };

    ghost view = { λ s. record { seed = s.seed; place = s.place } };

    ghost invariant = { λ s. s.ahead ≡ state_at s.seed (s.place + 4) % 2 ^ 32 };
}

impl Stream {
    /// The stream of a seed, from 0 to 4,294,967,295, at place 0, where a game begins (number generation).
    pub fn from_seed(seed: u32) -> Stream
        ensures seed { result.seed ≡ seed }
        ensures place { result.place ≡ 0 }
    {
        Stream {
            seed,
            place: 0,
            ahead: fourth_state(seed),
        }
    }

    /// The stream of a seed at a place, from 0 to 2^63 - 1. `steps` counts each affine step that is made, doubled or
    /// used: at most two for each binary digit of the place, plus two.
    pub fn at_place<L: Ledger>(seed: u32, place: u64, steps: &mut Steps<L>) -> Stream
        requires { place < 2 ^ 63 }
        ensures seed { result.seed ≡ seed }
        ensures place { result.place ≡ place }
        ensures cost { (digits : ℕ) → place < 2 ^ digits → steps.new ≤ steps.old + (2 * digits + 2) }
    {
        Stream {
            seed,
            place,
            ahead: state_ahead(seed, place, steps),
        }
    }

    /// The stream of a seed at a place, from 0 to 2^63 - 1, for a caller that counts no steps.
    pub fn at_place_uncounted(seed: u32, place: u64) -> Stream
        requires { place < 2 ^ 63 }
        ensures seed { result.seed ≡ seed }
        ensures place { result.place ≡ place }
    {
        at_place_from::<Brand>(seed, place, Blank::new(1))
    }

    /// How many numbers were drawn, from 0 (number generation).
    #[inline]
    pub fn place(&self) -> u64
        ensures { result ≡ self.now.place }
    {
        self.place
    }

    /// The seed (number generation).
    #[inline]
    pub fn seed(&self) -> u32
        ensures { result ≡ self.now.seed }
    {
        self.seed
    }

    /// A random number below n, which is at least 1: `x(place) mod n` (number generation). The place rises by one, even
    /// if n is 1, and the seed is unchanged.
    #[inline]
    pub fn draw(&mut self, n: u32) -> u32
        requires some { 1 ≤ n }
        requires room { self.old.place < 2 ^ 63 - 1 }
        ensures number { result ≡ drawn self.old.seed self.old.place n }
        ensures below { result < n }
        ensures place { self.new.place ≡ self.old.place + 1 }
        ensures seed { self.new.seed ≡ self.old.seed }
    {
        let number = (self.ahead >> 16) & 16383;
        self.ahead = next_state(self.ahead);
        self.place += 1;
        number % n
    }
}

/// 32 bits of the fourth state of a seed, from which the number of place 0 is read.
fn fourth_state(seed: u32) -> u32
    ensures { result ≡ state_at seed 4 % 2 ^ 32 }
{
    let mut state = seed;
    for _ in 0..4u8 {
        state = next_state(state);
    }
    state
}

/// 32 bits of the state four places after a place, by one jump for each binary digit 1 of the place.
fn state_ahead<L: Ledger>(seed: u32, place: u64, steps: &mut Steps<L>) -> u32
    ensures state { result ≡ state_at seed (place + 4) % 2 ^ 32 }
    ensures cost { (digits : ℕ) → place < 2 ^ digits → steps.new ≤ steps.old + (2 * digits + 2) }
{
    let mut state = fourth_state(seed);
    let mut jump = Jump::of_one(steps);
    let mut left = place;
    'digits: while left > 0 {
        if left % 2 == 1 {
            state = jump.land(state, steps);
        }
        jump = jump.twice(steps);
        left /= 2;
    }
    state
}

fn at_place_from<L: Ledger>(seed: u32, place: u64, blank: Blank) -> Stream
    requires name { blank.name ≡ L.name }
    requires parts { blank.parts ≡ L.parts }
    requires some { 0 < blank.parts }
    requires place { place < 2 ^ 63 }
    ensures seed { result.seed ≡ seed }
    ensures place { result.place ≡ place }
{
    let mut steps = Steps::<L>::new(blank);
    Stream::at_place(seed, place, &mut steps)
}
