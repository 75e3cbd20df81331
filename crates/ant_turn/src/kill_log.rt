// The ants that are killed in a turn, noted if the caller requests it.
ghost use Rattle.std.specs.Prelude.{◌≡◌, ◌+◌, ◌≤◌, ℕ, List, [], ◌∷◌, Option, Some};
ghost use Rattle.cell_world.specs.declared.ant.PlacedAnt.{PlacedAnt};
ghost use Rattle.ant_turn.specs.Deaths.{with_noted};

use arrayvec::ArrayVec;
use cell_world::PlacedAnt;

/// Notes the ants that are killed in a turn, each with its position and as it was when it was killed (the task's
/// martial arts). A turn needs room for 7.
pub trait KillLog {
    /// The ants that it has noted, if it reports them; each entry is an ant.
    ghost noted: { Self → Option (List (Option PlacedAnt)) };

    /// For how many more it has room.
    ghost room: { Self → ℕ };

    /// Notes one more ant, after the others.
    fn note(&mut self, killed: PlacedAnt)
        requires { 1 ≤ room self.old }
        ensures noted { noted self.new ≡ with_noted (Some killed ∷ []) (noted self.old) }
        ensures room { room self.old ≤ room self.new + 1 };
}

// It notes nothing.
#[derive(Drop)]
pub(crate) struct NoKillLog;

impl KillLog for NoKillLog {
    ghost use Rattle.std.specs.Prelude.{None};

    ghost noted = { λ _. None };

    ghost room = { λ _. 7 };

    #[inline(always)]
    fn note(&mut self, _killed: PlacedAnt) {}
}

/// It has room for the ants killed in one turn.
impl KillLog for ArrayVec<Option<PlacedAnt>, 7> {
    ghost use Rattle.std.specs.Prelude.{◌-◌, Some};
    ghost use Rattle.arrayvec.specs.ArrayVec.{array_vec_len};

    ghost noted = { λ list. Some list.items };

    ghost room = { λ list. 7 - array_vec_len list };

    #[inline]
    fn note(&mut self, killed: PlacedAnt) {
        self.push(Some(killed));
    }
}
