// The table, and the search in it.
ghost use Rattle.std.specs.Prelude.{◌≡◌, ◌<◌, ℕ, List, Some, IfSome, IsTrue, map, slice_get};
ghost use Rattle.std.specs.Str.{str_eq_ignore_ascii_case};
ghost use Rattle.word_table.specs.Words.{are_distinct, word_place, IsWordAt, WordIsFound};

use std::convert::AsStr;
use std::marker::Model;

/// A table of `N` words that differ in any ASCII case.
pub type WordTable<const N: usize> = Words<&'static str, N>;

/// A table of `N` texts that differ in any ASCII case. Contracts see it as the list of its texts.
#[derive(Drop)]
pub struct Words<T: AsStr, const N: usize> {
    words: [T; N],
}

impl<T: AsStr, const N: usize> Model for Words<T, N> {
    ghost use Rattle.std.specs.Prelude.{ℕ, List, IsTrue, map};
    ghost use Rattle.word_table.specs.Words.{are_distinct};

    ghost Value = { List (List ℕ) };

    ghost view = { λ table. map T.text table.words };

    ghost invariant = { λ table. IsTrue (are_distinct (map T.text table.words)) };
}

impl<T: AsStr, const N: usize> Words<T, N> {
    /// The table of these words, in this order. It takes no memory. The check refuses a program in which two words of a
    /// table differ in ASCII case alone.
    pub fn new(words: [T; N]) -> Words<T, N>
        requires { IsTrue (are_distinct (map T.text words)) }
        ensures { result ≡ map T.text words }
    {
        Words { words }
    }

    /// The place, counted from 0, of the word that equals the text in any ASCII case; `None` if the table has no such
    /// word.
    pub fn find(&self, text: &[u8]) -> Option<usize>
        ensures place { result ≡ word_place self.now text.now }
        ensures below { IfSome result (λ i. i < N) }
        ensures found { IfSome result (λ i. IsWordAt self.now i text.now) }
        ensures only { (i : ℕ) → IsWordAt self.now i text.now → result ≡ Some i }
    {
        // Reading the field makes its invariant known here: its words are pairwise different.
        let _table = &self.words;
        self.place(text)
    }

    /// The word at a place, counted from 0 and below `N`, as it was spelled.
    pub fn word(&self, i: usize) -> &str
        requires { i < N }
        ensures { slice_get self.now i ≡ Some result.now }
    {
        self.words[i].as_str()
    }

    // The first place of the text in the table, in any case of its letters.
    fn place(&self, text: &[u8]) -> Option<usize>
        ensures place { result ≡ word_place self.now text.now }
        ensures below { IfSome result (λ i. i < N) }
    {
        for (i, word) in self.words.iter().enumerate() {
            if is_word(word.as_str(), text) {
                return Some(i);
            }
        }
        None
    }
}

/// A law: in a table whose words differ in any ASCII case, each word is found at its own place.
pub fn word_is_found()
    ensures { WordIsFound }
{}

// Whether the word equals the text in any ASCII case.
fn is_word(word: &str, text: &[u8]) -> bool
    ensures { result ≡ str_eq_ignore_ascii_case word.now text.now }
{
    word.as_bytes().eq_ignore_ascii_case(text)
}
