// The whole procedure.
ghost use Rattle.std.specs.Prelude.{◌≡◌, ◌+◌, ◌*◌, ◌<◌, ◌≤◌, IfErr, IfOk, length};
ghost use Rattle.world_gen.specs.Inner.Answers.{IsGeneratedGrid, IsStep};
ghost use Rattle.world_gen.specs.Inner.Open.{IsFenced};
ghost use Rattle.world_gen.specs.Generated.{IsAnswer, IsRefusal, IsShape};

use crate::cells::cells_of;
use crate::draft::Draft;
use crate::element::Element;
use crate::shape::Shape;
use ant_base::{Failed, Layout, Sink, layout, show};
use ant_random::Stream;
use cell_world::World;
use hex_geometry::OutOfMemory;
use std::alloc::Global;
use std::error::Error;
use std::fmt;

/// Why no world was generated.
#[derive(Clone, Copy, Debug, PartialEq, Eq)]
pub enum GenFault {
    /// This element fits nowhere on the grid: 0 is the red hill, 1 the black hill, then come the rocks, then the blobs.
    NoRoom {
        /// The number of the element.
        element: u32,
    },
    /// Memory ran out.
    OutOfMemory,
}

impl Layout for GenFault {
    ghost use Rattle.world_gen.specs.FaultText.{gen_fault_text};

    ghost text = { gen_fault_text };

    fn push_to<K: Sink>(&self, sink: &mut K) -> Result<(), Failed> {
        match *self {
            GenFault::NoRoom { element } => layout!("no room for element ", element).push_to(sink),
            GenFault::OutOfMemory => OutOfMemory.push_to(sink),
        }
    }
}

impl fmt::Display for GenFault {
    ghost use Rattle.std.specs.Prelude.{Some};
    ghost use Rattle.world_gen.specs.FaultText.{gen_fault_text};

    ghost output = { λ fault. Some (gen_fault_text fault) };

    fn fmt<W: fmt::Write>(&self, f: &mut fmt::Formatter<W>) -> fmt::Result {
        show(self, f)
    }
}

impl Error for GenFault {}

impl From<OutOfMemory> for GenFault {
    ghost use Rattle.world_gen.specs.declared.generator.GenFault.TheVariants.{OutOfMemory};

    ghost from_gives = { λ _ fault. fault ≡ OutOfMemory };

    fn from(_: OutOfMemory) -> Self {
        GenFault::OutOfMemory
    }
}

/// The world of a seed, from 0 to 4,294,967,295, and a shape, whose width and height are from 3 to 512. The rim and the
/// rocks are rocky, each cell of a blob has 5 food particles, every other cell outside the hills is clear, and an ant
/// begins on each hill cell. An element is put at the first of its 50 tries that fits, otherwise at the first place
/// that fits in row order. `NoRoom` is returned exactly if an element has no place, and names the first such element.
/// Otherwise it fails only if memory runs out.
///
/// For seed 12345 and 64 by 64 cells without rocks and with one blob it returns the world whose red hill is around (25,
/// 52) and whose black hill is around (18, 7), with the blob's corner at (36, 40). For 12 by 12 cells it returns
/// `NoRoom { element: 0 }` with every seed, since a hill is 13 cells wide.
pub fn generate(alloc: Global, seed: u32, shape: Shape) -> Result<World, GenFault>
    requires { IsShape shape }
    ensures { IsAnswer seed shape result }
{
    let draft = Draft::of_shape(alloc, seed, shape)?;
    let world = World::build(alloc, shape.width, shape.height, &draft.kinds)?;
    Ok(world)
}

impl Draft {
    // The draft in which all elements of the shape are placed.
    fn of_shape(alloc: Global, seed: u32, shape: Shape) -> Result<Draft, GenFault>
        requires { IsShape shape }
        ensures made { IfOk result (λ draft. IsGeneratedGrid seed shape draft.width draft.height draft.kinds.items) }
        ensures refused { IfErr result (λ fault. IsRefusal seed shape fault) }
    {
        let mut draft = Draft::bare(alloc, shape.width, shape.height)?;
        let mut stream = Stream::from_seed(seed);
        for number in 0..shape.count() {
            draft.put(alloc, &mut stream, shape.element(number), number)?;
        }
        Ok(draft)
    }

    // Places the element with this number.
    fn put(
        &mut self,
        alloc: Global,
        stream: &mut Stream,
        element: Element,
        number: u32,
    ) -> Result<(), GenFault>
        requires fence { IsFenced self.old.width self.old.height self.old.blocked.items }
        requires kinds { length self.old.kinds.items ≡ self.old.width * self.old.height }
        requires wide { 1 ≤ self.old.width }
        requires high { 1 ≤ self.old.height }
        requires early { stream.old.place < 1000000 }
        ensures width { self.new.width ≡ self.old.width }
        ensures height { self.new.height ≡ self.old.height }
        ensures seed { stream.new.seed ≡ stream.old.seed }
        ensures place { stream.new.place ≤ stream.old.place + 151 }
        ensures step { IsStep stream.old.seed self.old.width self.old.height element number stream.old.place stream.new.place self.old.blocked.items
            self.new.blocked.items self.old.kinds.items self.new.kinds.items result }
    {
        let Some(spot) = self.choose(stream, element) else {
            return Err(GenFault::NoRoom { element: number });
        };
        let cells = cells_of(alloc, spot)?;
        self.stamp_all(&cells, spot.figure.kind());
        Ok(())
    }
}
