// The bodies of a program by the names in their lines.
ghost use Rattle.std.specs.Prelude.{◌≡◌, ◌≤◌, ◌∷◌, ◌++◌, [], ◌+◌, OnOk, length};
ghost use Rattle.ant_asm.specs.Inner.Outlines.{IsUseBelow, counted_from, line_size, most_size};

use hex_geometry::OutOfMemory;
use std::alloc::Global;

/// A line of a body: a label, the instruction on this line, or the use on this line of the block with this name and
/// number.
#[derive(Drop)]
pub enum NamedLine {
    Label(Vec<u8>),
    Instruction(u32),
    Use {
        line: u32,
        name: Vec<u8>,
        block: usize,
    },
}

/// The lines of a body, the places of those that aren't labels, and how many instructions they expand to: at most
/// 10,000 in a program, so the count never overflows.
#[derive(Drop)]
pub struct NamedBody {
    pub lines: Vec<NamedLine>,
    pub counted: Vec<usize>,
    pub size: u16,
}

impl NamedBody {
    // A body without lines.
    pub(crate) fn new(alloc: Global) -> Self
        ensures lines { result.lines.items ≡ [] }
        ensures counted { result.counted.items ≡ [] }
        ensures size { result.size ≡ 0 }
    {
        NamedBody {
            lines: Vec::new(alloc),
            counted: Vec::new(alloc),
            size: 0,
        }
    }

    // Adds a line, which expands to this many instructions.
    pub(crate) fn add(&mut self, line: NamedLine, size: u16) -> Result<(), OutOfMemory>
        ensures lines { OnOk result (self.new.lines.items ≡ self.old.lines.items ++ line ∷ []) }
        ensures counted { OnOk result (self.new.counted.items ≡ self.old.counted.items ++ counted_from (length self.old.lines.items) (line ∷ [])) }
        ensures size { OnOk result (self.old.size + size ≤ most_size → self.new.size ≡ self.old.size + size) }
    {
        let place = self.lines.len();
        match &line {
            NamedLine::Label(_) => {}
            NamedLine::Instruction(_) => self.counted.push(place)?,
            NamedLine::Use { .. } => self.counted.push(place)?,
        }
        self.lines.push(line)?;
        self.size = self.size.saturating_add(size);
        Ok(())
    }
}

// How many instructions a line of a body expands to.
pub(crate) fn size_of(bodies: &[NamedBody], line: &NamedLine) -> u16
    requires { IsUseBelow (length bodies.now) line.now }
    ensures { result ≡ line_size bodies.now line.now }
{
    match line {
        NamedLine::Label(_) => 0,
        NamedLine::Instruction(_) => 1,
        NamedLine::Use {
            line: _,
            name: _,
            block,
        } => bodies[*block].size,
    }
}
