// Each file has tests of one library, named after what it calls; some libraries have several files.
mod boards;
mod cups;
mod faults;
mod files_and_texts;
mod generated;
mod labelled_programs;
mod numbers;
mod standing_workers;
mod stopped_games;
mod stops;
mod stream_sinks;
mod turns;
mod world_files;
mod worlds;

ghost use Rattle.std.specs.Prelude.{◌≡◌};

use cell_world::Kind;

// The kinds from which the worlds of tests are built.
const ROCK: Kind = Kind::Rock;

const CLEAR: Kind = Kind::Clear;

const RED: Kind = Kind::RedHill;

const BLACK: Kind = Kind::BlackHill;

// A value that may be borrowed by threads and passed to them.
fn shared<T: Send + Sync>(value: &T) -> &T
    ensures { result.now ≡ value.now }
{
    value
}
