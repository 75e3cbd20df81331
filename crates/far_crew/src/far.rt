// Workers that stay ready while an errand is run.
ghost use Rattle.std.specs.Prelude.{◌≡◌, ◌≤◌, IfOk, IfErr};
ghost use Rattle.round_book.specs.Book.{CanBegin};
ghost use Rattle.round_book.specs.Led.{IsWindow};

use crate::channels::WorkerChannels;
use crate::crew::FarCrew;
use crate::found::Found;
use crate::job::Job;
use ant_base::Gate;
use crossbeam_channel::{Receiver, Sender};
use hex_geometry::OutOfMemory;
use round_book::{Counts, Crew, Field, Led};
use std::alloc::{AllocError, AllocFailed, Global};
use std::sync::Wait;
use std::thread;
use std::thread::Threads;

/// What is done with a crew of any kind. An errand is passed by value and returned, since a scope of threads passes on
/// what its closure returns, and not what the closure writes through a borrow. It may hold `&mut` references, which are
/// returned with it.
pub trait Errand: Drop {
    /// The relation between the errand that is passed and the one that is returned.
    ghost finished: { Self → Self → Type 0 };

    /// Does it with a ready crew, and returns the errand.
    fn run<C: Crew>(self, crew: &mut C) -> Self
        requires { C.ready crew.old }
        ensures { finished self result };
}

// Both ends of a worker's channels.
#[derive(Drop)]
struct Post {
    number: u32,
    line: WorkerChannels,
    jobs: Receiver<Job>,
    answers: Sender<Found>,
}

// The posts of this many workers, and room for their lines.
fn posts(alloc: Global, workers: u32) -> Result<(Vec<Post>, Vec<WorkerChannels>), AllocError> {
    let mut posts = Vec::with_capacity(alloc, workers as usize)?;
    let lines = Vec::with_capacity(alloc, workers as usize)?;
    for number in 0..workers {
        posts.push(new_post(alloc, number)?)?;
    }
    Ok((posts, lines))
}

fn new_post(alloc: Global, number: u32) -> Result<Post, AllocError> {
    let (to_worker, jobs) = crossbeam_channel::bounded(alloc, 1)?;
    let (answers, from_worker) = crossbeam_channel::bounded(alloc, 1)?;
    Ok(Post {
        number,
        line: WorkerChannels::of(to_worker, from_worker),
        jobs,
        answers,
    })
}

// What a worker does: jobs, one after another, until there are no more.
fn serve<R: Wait, G: Gate>(
    rt: &R,
    gate: &G,
    number: u32,
    jobs: Receiver<Job>,
    answers: Sender<Found>,
) {
    for _ in rt.forever() {
        let Ok(job) = jobs.recv(rt) else {
            return;
        };
        if answers.send(rt, job.work(gate, number)).is_err() {
            return;
        }
    }
}

// Runs an errand with the workers of these lines.
fn run_errand<R: Wait, G: Gate, E: Errand>(
    rt: &R,
    alloc: Global,
    gate: &G,
    workers: u32,
    lines: Vec<WorkerChannels>,
    errand: E,
) -> E
    ensures { E.finished errand result }
{
    let mut far = FarCrew::of(rt, alloc, gate, workers, lines);
    let mut crew = Led::by(
        |field: &mut Field<'_>, from: u32, to: u32| -> Result<Counts, OutOfMemory>
            requires { CanBegin field.now from to }
            ensures { IsWindow result field.entry.now from to field.exit.now }
        { far.window(alloc, field, from, to) },
    );
    errand.run(&mut crew)
}

/// Runs an errand with a crew of 1 to 16 workers that stay ready, and returns the errand. It fails only if memory runs
/// out; then the errand is returned unchanged.
///
/// The workers are started, each with two channels of its own. If a worker's start is refused it is left out, and the
/// committer looks at its turns. The errand runs on the caller's thread with a crew of them. When it is done the
/// channels are closed, which ends the workers, and they are joined before the call returns. Worker k, from 0, calls
/// the gate with its number before each look, and the committer with the number of workers. The call may wait for a
/// worker.
pub fn with_far<R: Threads + Wait + Sync, G: Gate, E: Errand>(
    rt: &R,
    alloc: Global,
    workers: u32,
    gate: &G,
    errand: E,
) -> Result<E, AllocFailed<E>>
    requires { (1 ≤ workers) × (workers ≤ 16) }
    ensures finished { IfOk result (λ done. E.finished errand done) }
    ensures refused { IfErr result (λ refused. refused.value ≡ errand) }
{
    let Ok((posts, mut lines)) = posts(alloc, workers) else {
        return Err(AllocFailed { value: errand });
    };
    let done = thread::scope(
        thread::scope_env(),
        rt,
        move |scope| -> E
            ensures { E.finished errand result }
        {
            for post in posts {
                let Post {
                    number,
                    line,
                    jobs,
                    answers,
                } = post;
                if scope
                    .spawn(move || serve(rt, gate, number, jobs, answers))
                    .is_ok()
                {
                    // its room was reserved with the posts
                    let _ = lines.push(line);
                }
            }
            run_errand(rt, alloc, gate, workers, lines, errand)
        },
    );
    Ok(done)
}
