// The names of a program's bodies, read line by line.
ghost use Rattle.std.specs.Prelude.{◌≡◌, ◌≤◌, ◌∷◌, [], ◌+◌, ℕ, List, length, OnOk, IfOk};
ghost use Rattle.ant_base.specs.Shelf.{longest};
ghost use Rattle.ant_asm.specs.declared.action.Action.{Action};
ghost use Rattle.ant_asm.specs.Names.{Named};
ghost use Rattle.ant_asm.specs.Labels.{NumberedLine, outline_of};
ghost use Rattle.ant_asm.specs.Labels.NumberedLine.{At};
ghost use Rattle.ant_asm.specs.Lines.Line.{Begins, Ends, Instructs, Marks, Uses};
ghost use Rattle.ant_asm.specs.Inner.ReadLine.{line_seen};
ghost use Rattle.ant_asm.specs.Inner.Outlines.{IsGoodOutlines, AreOutlinesOf, rest_of, rest_from, lines_said};

use crate::line::{Line, read_line};
use crate::named::{NamedBody, NamedLine};
use crate::program::MOST_BLOCKS;
use crate::scope::block_named;
use ant_base::Lines;
use hex_geometry::OutOfMemory;
use indexmap::IndexMap;
use line_tokens::Tokens;
use std::alloc::Global;
use std::mem;

/// What surrounds a block that has begun and not ended: main so far, and the block's name.
#[derive(Drop)]
pub struct Around<'t> {
    pub main: NamedBody,
    pub name: &'t [u8],
}

/// What was read so far: the body to which lines are added, what surrounds it if it is a block, the blocks that have
/// ended, and the block of each name.
#[derive(Drop)]
pub struct Outlines<'t> {
    pub current: NamedBody,
    pub around: Option<Around<'t>>,
    pub bodies: Vec<NamedBody>,
    pub blocks: IndexMap<&'t [u8], usize>,
}

impl<'t> Outlines<'t> {
    // Nothing.
    pub(crate) fn new(alloc: Global) -> Self
        ensures good { IsGoodOutlines result }
        ensures rest { (lines : List NumberedLine) → rest_of result lines ≡ outline_of lines }
    {
        Outlines {
            current: NamedBody::new(alloc),
            around: None,
            bodies: Vec::new(alloc),
            blocks: IndexMap::new(alloc),
        }
    }

    // Reads one more line, with this number. A program's lines have no fault, so this fails only if memory runs out.
    pub(crate) fn read(
        &mut self,
        alloc: Global,
        line: &'t [u8],
        number: u32,
    ) -> Result<(), OutOfMemory>
        requires good { IsGoodOutlines self.old }
        ensures good { OnOk result (IsGoodOutlines self.new) }
        ensures on { (lines : List (List ℕ)) → OnOk result (rest_from self.new (number + 1) lines ≡ rest_from self.old number (line.now ∷ lines)) }
    {
        let mut tokens = Tokens::new(line);
        if !tokens.has_next() {
            return Ok(());
        }
        match read_line(alloc, &mut tokens) {
            Ok(said) => self.add(alloc, said, number),
            Err(_) => Err(OutOfMemory),
        }
    }

    // Adds what a line says.
    fn add(&mut self, alloc: Global, line: Line<'t>, number: u32) -> Result<(), OutOfMemory>
        requires good { IsGoodOutlines self.old }
        ensures good { OnOk result (IsGoodOutlines self.new) }
        ensures on { (lines : List NumberedLine) → OnOk result (rest_of self.new lines ≡ rest_of self.old (At number (line_seen line.entry) ∷ lines)) }
    {
        match line {
            Line::Mark(name) => self.mark(alloc, name),
            Line::Begin {
                name,
                parameters: _,
            } => {
                self.begin(alloc, name);
                Ok(())
            }
            Line::End => self.end(),
            Line::Use { name, handed: _ } => self.put(alloc, name, number),
            Line::Instruct(_) => self.instruct(number),
        }
    }

    // Adds a label of the next item.
    fn mark(&mut self, alloc: Global, name: &[u8]) -> Result<(), OutOfMemory>
        requires good { IsGoodOutlines self.old }
        ensures good { OnOk result (IsGoodOutlines self.new) }
        ensures on { (number : ℕ) (lines : List NumberedLine) → OnOk result (rest_of self.new lines ≡ rest_of self.old (At number (Marks name.now) ∷ lines)) }
    {
        let name = Vec::from_slice(alloc, name)?;
        self.current.add(NamedLine::Label(name), 0)
    }

    // Adds an instruction.
    fn instruct(&mut self, line: u32) -> Result<(), OutOfMemory>
        requires good { IsGoodOutlines self.old }
        ensures good { OnOk result (IsGoodOutlines self.new) }
        ensures on { (action : Action Named) (lines : List NumberedLine) → OnOk result (rest_of self.new lines ≡ rest_of self.old (At line (Instructs action) ∷ lines)) }
    {
        self.current.add(NamedLine::Instruction(line), 1)
    }

    // Adds a use of a block; in a program the block has ended above.
    fn put(&mut self, alloc: Global, name: &[u8], line: u32) -> Result<(), OutOfMemory>
        requires good { IsGoodOutlines self.old }
        ensures good { OnOk result (IsGoodOutlines self.new) }
        ensures on { (handed : List Named) (lines : List NumberedLine) → OnOk result (rest_of self.new lines ≡ rest_of self.old (At line (Uses name.now handed) ∷ lines)) }
    {
        let Some(block) = block_named(&self.blocks, name) else {
            return Ok(());
        };
        let size = self.bodies[block].size;
        let name = Vec::from_slice(alloc, name)?;
        self.current.add(NamedLine::Use { line, name, block }, size)
    }

    // Begins a block; in a program no block begins inside a block.
    fn begin(&mut self, alloc: Global, name: &'t [u8])
        requires good { IsGoodOutlines self.old }
        ensures good { IsGoodOutlines self.new }
        ensures on { (number : ℕ) (parameters : List (List ℕ)) (lines : List NumberedLine) → rest_of self.new lines ≡ rest_of self.old (At number (Begins name.now parameters) ∷ lines) }
    {
        if self.around.is_some() {
            return;
        }
        let main = mem::replace(&mut self.current, NamedBody::new(alloc));
        self.around = Some(Around { main, name });
    }

    // Ends a block; in a program one has begun, and there are at most 256.
    fn end(&mut self) -> Result<(), OutOfMemory>
        requires good { IsGoodOutlines self.old }
        ensures good { OnOk result (IsGoodOutlines self.new) }
        ensures on { (number : ℕ) (lines : List NumberedLine) → OnOk result (rest_of self.new lines ≡ rest_of self.old (At number Ends ∷ lines)) }
    {
        let Some(around) = self.around.take() else {
            return Ok(());
        };
        let block = self.bodies.len();
        if block >= MOST_BLOCKS {
            return Err(OutOfMemory);
        }
        let body = mem::replace(&mut self.current, around.main);
        self.bodies.push(body)?;
        self.blocks.insert(around.name, block)?;
        Ok(())
    }
}

// The bodies of a program's text, by the names in their lines: its blocks, and main last.
pub(crate) fn read_outlines(alloc: Global, text: &[u8]) -> Result<Vec<NamedBody>, OutOfMemory>
    requires { length text.now ≤ longest }
    ensures { IfOk result (λ bodies. AreOutlinesOf (lines_said text.now) bodies.items) }
{
    let mut outlines = Outlines::new(alloc);
    outlines_into(alloc, text, &mut outlines)
}

// Reads the lines of a text into empty outlines.
#[tactic(auto, using(crate::proofs::OutlineReading::rest_from_end, crate::proofs::OutlineReading::rest_from_start))]
fn outlines_into<'t>(
    alloc: Global,
    text: &'t [u8],
    outlines: &mut Outlines<'t>,
) -> Result<Vec<NamedBody>, OutOfMemory>
    requires short { length text.now ≤ longest }
    requires good { IsGoodOutlines outlines.old }
    requires nothing { (lines : List NumberedLine) → rest_of outlines.old lines ≡ outline_of lines }
    ensures { IfOk result (λ bodies. AreOutlinesOf (lines_said text.now) bodies.items) }
{
    let mut number = 1;
    for line in Lines::new(text) {
        outlines.read(alloc, line, number)?;
        number += 1;
    }
    take_outlines(alloc, outlines)
}

// The bodies that were read: the blocks, and main last.
fn take_outlines(alloc: Global, outlines: &mut Outlines) -> Result<Vec<NamedBody>, OutOfMemory>
    requires good { IsGoodOutlines outlines.old }
    ensures { (lines : List NumberedLine) → rest_of outlines.old [] ≡ outline_of lines → IfOk result (λ bodies. AreOutlinesOf lines bodies.items) }
{
    let main = match outlines.around.take() {
        Some(around) => around.main,
        None => mem::replace(&mut outlines.current, NamedBody::new(alloc)),
    };
    outlines.bodies.push(main)?;
    Ok(mem::replace(&mut outlines.bodies, Vec::new(alloc)))
}
