// From a word's place to its meaning.
ghost use Rattle.std.specs.Prelude.{◌≡◌, ◌<◌};

/// The match from a word's place in its table, counted from 0, to its meaning: `word_arms!(i; Side::Left, Side::Right)`
/// is `Side::Left` at 0, and `Side::Right` at every other place. Use it in a function's body, for up to 12 words.
#[macro_export]
macro_rules! word_arms {
    (@match $place:expr; [$($number:tt $value:expr;)*]; $last:expr) => {
        match $place {
            $($number => $value,)*
            _ => $last,
        }
    };
    (@count $place:expr; [$($done:tt)*]; [$($number:tt)*]; $last:expr) => {
        $crate::word_arms!(@match $place; [$($done)*]; $last)
    };
    (@count $place:expr; [$($done:tt)*]; [$number:tt $($numbers:tt)*]; $value:expr, $($rest:expr),+) => {
        $crate::word_arms!(@count $place; [$($done)* $number $value;]; [$($numbers)*]; $($rest),+)
    };
    ($place:expr; $($value:expr),+ $(,)?) => {
        $crate::word_arms!(@count $place; []; [0 1 2 3 4 5 6 7 8 9 10]; $($value),+)
    };
}

// The arms of a table of 12 words are in the order of its places.
fn arm_of_twelve(place: usize) -> usize
    requires { place < 12 }
    ensures { result ≡ place }
{
    word_arms!(place; 0, 1, 2, 3, 4, 5, 6, 7, 8, 9, 10, 11)
}
