// The callers of the gate.
use ant_base::Gate;

// A worker, or the committer, by the number with which it calls the gate.
#[derive(Drop)]
pub struct Caller<'g, G: Gate> {
    pub gate: &'g G,
    pub worker: u32,
}

impl<G: Gate> Caller<'_, G> {
    // Calls the gate before the look at a turn.
    #[inline]
    pub fn before_look(&self, id: u32) {
        self.gate.before_look(self.worker, id);
    }
}
