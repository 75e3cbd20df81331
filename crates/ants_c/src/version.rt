// The version of the library.
ghost use Rattle.ants_c.specs.Version.{version};

use ant_base::{Failed, Layout, Sink};

/// The version of this source and of the program: three numbers, followed by `-dev` between
/// releases (this project's own).
pub const VERSION: &str = "1.2.0-dev";

/// The text of the version.
#[derive(Clone, Copy)]
pub struct VersionText;

impl Layout for VersionText {
    ghost text = { λ _. version };

    #[tactic(auto, unfolding(crate::specs::Version::version))]
    fn push_to<K: Sink>(&self, sink: &mut K) -> Result<(), Failed> {
        VERSION.push_to(sink)
    }
}
