// What a worker calls before its looks.

/// What each worker calls before each look that it makes. The call changes nothing that the simulator sees.
pub trait Gate: Sync {
    /// The worker with this number, from 0, is about to make the look at the turn of the ant with this id.
    fn before_look(&self, worker: u32, ticket: u32);
}

/// A gate that does nothing.
#[derive(Clone, Copy)]
pub struct NoGate;

impl Gate for NoGate {
    fn before_look(&self, _worker: u32, _ticket: u32) {}
}
