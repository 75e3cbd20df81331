// Numbers read from texts and pushed as texts.
ghost use Rattle.std.specs.Prelude.{◌≡◌, ◌<◌, ◌≤◌, IfSome};
ghost use Rattle.std.specs.Fmt.{decimal};
ghost use Rattle.ant_base.specs.Sink.{Pushed};
ghost use Rattle.ant_base.specs.Number.{decimal_value, number_within};

use crate::{Failed, Layout, Sink};

const MAX_DIGITS: usize = 10;

/// The value of 1 to 10 decimal digits, leading zeros included; `None` if the text isn't 1 to 10 digits (the contest's
/// files).
#[tactic(auto, unfolding(crate::specs::Number::decimal_value))]
pub fn read_number(text: &[u8]) -> Option<u64>
    ensures value { result ≡ decimal_value text.now }
    ensures small { IfSome result (λ n. n < 10000000000) }
{
    if text.is_empty() || text.len() > MAX_DIGITS {
        return None;
    }
    let mut value = 0;
    for digit in text {
        if !digit.is_ascii_digit() {
            return None;
        }
        value = value * 10 + u64::from(*digit - b'0');
    }
    Some(value)
}

/// The value of 1 to 10 decimal digits, if it is between `least` and `most`, both included; `None` if the text isn't 1
/// to 10 digits or the value is outside (the contest's files).
pub fn read_number_within(text: &[u8], least: u64, most: u64) -> Option<u64>
    ensures value { result ≡ number_within least most text.now }
    ensures bounds { IfSome result (λ n. (least ≤ n) × (n ≤ most)) }
{
    let number = read_number(text)?;
    if least <= number && number <= most {
        Some(number)
    } else {
        None
    }
}

/// The same as a `u32`, with bounds that are `u32`: the value of 1 to 10 decimal digits, if it is between `least` and
/// `most`, both included; `None` if the text isn't 1 to 10 digits or the value is outside (the contest's files).
pub fn read_u32_within(text: &[u8], least: u32, most: u32) -> Option<u32>
    ensures value { result ≡ number_within least most text.now }
    ensures bounds { IfSome result (λ n. (least ≤ n) × (n ≤ most)) }
{
    let number = read_number_within(text, u64::from(least), u64::from(most))?;
    u32::try_from(number).ok()
}

/// Pushes the decimal text of n, from 0 to 18,446,744,073,709,551,615, without leading zeros. At `Failed` a prefix of
/// it was appended, and the count of faults rose.
pub fn push_number<K: Sink>(sink: &mut K, n: u64) -> Result<(), Failed>
    ensures { Pushed (K.state sink.old) (K.state sink.new) (decimal n) result }
{
    n.push_to(sink)
}
