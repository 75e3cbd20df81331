// A window played on one thread: each look is settled as soon as it is made, so one room is enough for all looks.
ghost use Rattle.std.specs.Prelude.{◌≡◌, ◌+◌, ◌<◌, ◌≤◌, ◌^◌, IfOk, OnOk, OnErr};
ghost use Rattle.std.specs.Vec.{vec_capacity, vec_len};
ghost use Rattle.round_book.specs.Book.{CanBegin, IsPlayed, IsSameWindow, StandsOn, window_of};
ghost use Rattle.round_book.specs.Counts.{counts_of};

use crate::book::Book;
use crate::counts::Counts;
use crate::field::Field;
use crate::one_turn::advance;
use ant_base::Gate;
use ant_random::Stream;
use hex_geometry::OutOfMemory;
use spec_record::{Look, look};
use std::alloc::Global;

// The number of a worker that works alone.
const ALONE: u32 = 0;

/// Plays the turns of the ids from `from` up to, but not including, `to` on the caller's thread, which calls the gate
/// as worker 0 before each look that it makes. The field is whole, `from` is at most `to`, `to` is at most the number
/// of ids, and the place plus the number of turns is below 2^63. Afterwards the field is whole, and its world and place
/// are those after the turns in order. The result counts the looks that were used and the turns that were executed
/// again. It fails only if memory runs out; the field is then unchanged.
pub fn play_window<G: Gate>(
    gate: &G,
    alloc: Global,
    field: &mut Field<'_>,
    from: u32,
    to: u32,
) -> Result<Counts, OutOfMemory>
    requires { CanBegin field.old from to }
    ensures played { OnOk result (IsPlayed field.old from to field.new) }
    ensures counts { IfOk result (λ counts. counts ≡ counts_of (window_of field.old from to)) }
    ensures unchanged { OnErr result (field.new ≡ field.old) }
{
    let mut stream = field.take_stream();
    let mut looks = field.take_looks(alloc)?;
    if from < to && looks.is_empty() {
        make_room(&mut looks, field, from);
    }
    let mut book = field.begin(alloc, from, to)?;
    if from < to {
        settle_alone(&mut book, field, &mut looks[0], &mut stream, gate);
    }
    let counts = field.finish(book);
    field.keep(stream, looks);
    Ok(counts)
}

// Makes the first look of a list, for its room. This happens once on a field, so it is a call.
#[inline(never)]
fn make_room(looks: &mut Vec<Look>, field: &Field<'_>, id: u32)
    requires none { vec_len looks.old ≡ 0 }
    requires room { 1 ≤ vec_capacity looks.old }
    requires id { id < field.now.world.ids }
    requires place { field.now.place + 1 < 2 ^ 63 }
    ensures { 1 ≤ vec_len looks.new }
{
    let place = field.place();
    looks.push_reserved(look(field.world(), field.brains(), field.seed(), place, id));
}

// Settles the turns of a window, which has at least one, by looks that are made one after another, in one room and from
// one stream.
fn settle_alone<G: Gate>(
    book: &mut Book,
    field: &Field<'_>,
    look: &mut Look,
    stream: &mut Stream,
    gate: &G,
)
    requires stands { StandsOn field.now book.old }
    requires next { book.old.next ≡ book.old.from }
    requires seed { stream.old.seed ≡ field.now.seed }
    requires place { stream.old.place ≡ field.now.place }
    ensures stands { StandsOn field.now book.new }
    ensures next { book.new.next ≡ book.old.to }
    ensures same { IsSameWindow book.old book.new }
{
    let from = book.next();
    let to = book.to();
    for id in from..to {
        gate.before_look(ALONE, id);
        look.renew(field.world(), field.brains(), stream, id);
        advance(book, field, look);
    }
}
