// The workers that play the windows of a crew.
use ant_base::Gate;
use std::thread::Threads;

// The workers of a crew: the runtime of their threads, the gate that they call before each look, and their number.
#[derive(Drop)]
pub struct Team<'c, R: Threads + Sync, G: Gate> {
    pub rt: &'c R,
    pub gate: &'c G,
    pub workers: u32,
}
