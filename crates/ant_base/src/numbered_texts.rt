// Texts in numbered parts.
ghost use Rattle.std.specs.Prelude.{◌≡◌, ◌<◌, List, ℕ};
ghost use Rattle.ant_base.specs.Sink.{Pushed};
ghost use Rattle.ant_base.specs.Layout.{numbered};

use crate::{Failed, Layout, Sink};

/// Texts that are numbered from 0.
pub trait NumberedTexts {
    /// How many there are.
    ghost count: { Self → ℕ };

    /// The text with this number.
    ghost part: { Self → ℕ → List ℕ };

    /// How many there are.
    fn count(&self) -> usize
        ensures { result ≡ count self.now };

    /// Pushes the text with this number. At `Failed` a prefix of it was appended, and the count of faults rose.
    fn push_part<K: Sink>(&self, at: usize, sink: &mut K) -> Result<(), Failed>
        requires { at < count self.now }
        ensures { Pushed (K.state sink.old) (K.state sink.new) (part self.now at) result };
}

/// All the parts, one after another, from number 0 on.
#[derive(Clone, Copy)]
pub struct Each<P>(pub P);

impl<P: NumberedTexts> Layout for Each<P> {
    ghost text = { λ each. numbered (P.part each.0) (P.count each.0) };

    fn push_to<K: Sink>(&self, sink: &mut K) -> Result<(), Failed> {
        for at in 0..self.0.count() {
            self.0.push_part(at, sink)?;
        }
        Ok(())
    }
}
