// Looks at the turn of one ant.
ghost use Rattle.std.specs.Prelude.{◌≡◌, ◌+◌, ◌<◌, ◌≤◌, ◌^◌, ◌∷◌, [], ◌++◌, drop, take, true};
ghost use Rattle.std.specs.Vec.{vec_capacity, vec_len};
ghost use Rattle.cell_world.specs.Cell.{one_if};
ghost use Rattle.cell_world.specs.Grid.{world_of};
ghost use Rattle.ant_turn.specs.Minds.{Fits, minds_of};
ghost use Rattle.spec_record.specs.Guess.{flips};
ghost use Rattle.spec_record.specs.Look.{look_of};

use crate::guess::at_flip;
use crate::record::Look;
use ant_random::Stream;
use ant_turn::Brains;
use cell_world::World;

/// The look at the turn of the ant with this id in `base`; its random number is guessed to be at a place of the seed's
/// stream. It has the positions that the turn reads, each once, with their parts and their cells in `base`; those that
/// it writes, each once, with their parts and their cells after the turn; whether it draws; and which ants it kills.
/// The base is unchanged. It takes no memory.
///
/// Each ant's state is below the length of its colour's brain, the id is below the number of ids, and the guess is
/// below 2^63 - 1.
pub fn look(base: &World, brains: Brains<'_>, seed: u32, guess: u64, id: u32) -> Look
    requires fit { Fits (world_of base.now) (minds_of brains) }
    requires id { id < base.now.ids }
    requires guess { guess + 1 < 2 ^ 63 }
    ensures { result ≡ look_of (minds_of brains.entry) seed (world_of base.now) guess id }
{
    let mut stream = stream_for(base, brains, seed, guess, id);
    let mut look = look_by(base, brains, &mut stream, id);
    look.set_guess(guess);
    look
}

/// The same look; its random number is guessed to be at the current place of a stream. The stream advances by one
/// number if the turn draws one, so that looks at consecutive turns are made at their guesses. It takes no memory.
///
/// Each ant's state is below the length of its colour's brain, the id is below the number of ids, and the stream is
/// below 2^63 - 1.
#[inline]
pub fn look_by(base: &World, brains: Brains<'_>, stream: &mut Stream, id: u32) -> Look
    requires fit { Fits (world_of base.now) (minds_of brains) }
    requires id { id < base.now.ids }
    requires place { stream.old.place + 1 < 2 ^ 63 }
    ensures look { result ≡ look_of (minds_of brains.entry) stream.old.seed (world_of base.now) stream.old.place id }
    ensures stream { stream.new ≡ record stream.old { place = stream.old.place + one_if result.drew } }
{
    let mut look = Look::blank(id, stream.place());
    look.renew(base, brains, stream, id);
    look
}

/// The same look, put into a list: it replaces the look with this number, or is added after the last one if the list
/// has room. The other looks are unchanged. It takes no memory: the looks of one window reuse the rooms of those of an
/// earlier one.
///
/// Each ant's state is below the length of its colour's brain, the id is below the number of ids, and the stream is
/// below 2^63 - 1.
#[inline]
pub fn look_into(
    looks: &mut Vec<Look>,
    at: usize,
    base: &World,
    brains: Brains<'_>,
    stream: &mut Stream,
    id: u32,
)
    requires fit { Fits (world_of base.now) (minds_of brains) }
    requires id { id < base.now.ids }
    requires place { stream.old.place + 1 < 2 ^ 63 }

    // there is room for it
    requires next { at ≤ vec_len looks.old }
    requires room { at < vec_capacity looks.old }

    // the look is there, and the others are unchanged
    ensures made { take (at + 1) looks.new.items ≡ take at looks.old.items ++ look_of (minds_of brains.entry) stream.old.seed
        (world_of base.now) stream.old.place id ∷ [] }
    ensures behind { drop (at + 1) looks.new.items ≡ drop (at + 1) looks.old.items }

    // the stream advances only if the turn draws; the list keeps its memory
    ensures stream { stream.new ≡ record stream.old {
      place = stream.old.place + one_if
          (look_of (minds_of brains.entry) stream.old.seed (world_of base.now) stream.old.place id).drew;
    } }
    ensures len { at + 1 ≤ vec_len looks.new }
    ensures capacity { vec_capacity looks.new ≡ vec_capacity looks.old }
{
    if at < looks.len() {
        looks[at].renew(base, brains, stream, id);
    } else {
        looks.push_reserved(look_by(base, brains, stream, id));
    }
}

// A stream of the seed from which the turn of this id draws its number at the guess. It is moved to the guess only if
// the turn draws, since moving it is slow.
#[inline]
fn stream_for(base: &World, brains: Brains<'_>, seed: u32, guess: u64, id: u32) -> Stream
    requires fit { Fits (world_of base.now) (minds_of brains) }
    requires guess { guess + 1 < 2 ^ 63 }
    ensures seed { result.seed ≡ seed }
    ensures place { flips (minds_of brains.entry) (world_of base.now) id ≡ true → result.place ≡ guess }
    ensures small { result.place ≤ guess }
{
    if at_flip(base, brains, id) {
        Stream::at_place_uncounted(seed, guess)
    } else {
        Stream::from_seed(seed)
    }
}
