// A program that is being read, line by line.
ghost use Rattle.std.specs.Prelude.{◌≡◌, ◌+◌, ◌∷◌, [], ◌<◌, ◌≤◌, ℕ, List, length, OnOk, IfOk, IfErr, None, Ok, bytes_eq};
ghost use Rattle.ant_base.specs.Shelf.{longest};
ghost use Rattle.line_tokens.specs.TokenLines.{lines_with_tokens};
ghost use Rattle.brain_read.specs.Forms.{IsInRange};
ghost use Rattle.ant_asm.specs.LabelGame.{instruction_by};
ghost use Rattle.ant_asm.specs.Program.{size_of};
ghost use Rattle.ant_asm.specs.Lines.{IsLineInRange};
ghost use Rattle.ant_asm.specs.Lines.Line.{Begins, Ends, Instructs, Marks, Uses};
ghost use Rattle.ant_asm.specs.Text.{last_fault};
ghost use Rattle.ant_base.specs.Names.{has_name};
ghost use Rattle.ant_asm.specs.Standing.{earlier, has_twice, mapped, nothing_yet, place_fault};
ghost use Rattle.ant_asm.specs.Inner.Flat.{most, tree_at};
ghost use Rattle.ant_asm.specs.Inner.Reading.{seen};
ghost use Rattle.ant_asm.specs.Inner.ReadLine.{labels_seen, line_seen, names_seen};
ghost use Rattle.ant_asm.specs.Inner.Scopes.{known_as};
ghost use Rattle.ant_asm.specs.Inner.ProgramView.{AreBodiesOf, FailsAs, FailsText, IsGoodProgram, IsReadInto, program_seen, reading, reading_from};
ghost use Rattle.ant_asm.specs.Inner.View.{FailsWith, IsClosedAs};

use crate::action::Action;
use crate::body::Body;
use crate::fault::AsmFault;
use crate::line::{Line, read_line};
use crate::open::{OpenBody, OpenKind, close_body, first_unknown};
use crate::scope::block_named;
use crate::spelling::Source;
use ant_base::Lines;
use indexmap::IndexMap;
use line_tokens::Tokens;
use std::alloc::Global;
use std::mem;

/// The largest number of blocks.
pub(crate) const MOST_BLOCKS: usize = 256;

/// What surrounds a block that has begun and not ended: main so far, the block's name, and the line on which it begins.
#[derive(Drop)]
pub struct Outer<'t> {
    pub main: OpenBody<'t>,
    pub name: &'t [u8],
    pub line: u32,
}

/// What was read so far: the body to which lines are added, what surrounds it if it is a block, the blocks that have
/// ended, the block of each name, and the first line of an ended block that names a label which its body doesn't have.
#[derive(Drop)]
pub struct Program<'t> {
    pub current: OpenBody<'t>,
    pub outer: Option<Outer<'t>>,
    pub bodies: Vec<Body>,
    pub blocks: IndexMap<&'t [u8], usize>,
    pub unknown: Option<u32>,
}

impl<'t> Program<'t> {
    // Nothing.
    pub(crate) fn new(alloc: Global) -> Self
        ensures is { program_seen result ≡ nothing_yet }
        ensures good { IsGoodProgram result }
    {
        Program {
            current: OpenBody::new(alloc, 0),
            outer: None,
            bodies: Vec::new(alloc),
            blocks: IndexMap::new(alloc),
            unknown: None,
        }
    }

    // Reads one more line, with this number.
    pub(crate) fn read(
        &mut self,
        alloc: Global,
        line: &'t [u8],
        number: u32,
    ) -> Result<(), AsmFault>
        requires good { IsGoodProgram self.old }
        ensures good { OnOk result (IsGoodProgram self.new) }
        ensures on { (lines : List (List ℕ)) → OnOk result (reading_from (program_seen self.new) (number + 1) lines ≡ reading_from (program_seen self.old) number (line.now ∷ lines)) }
        ensures fault { (lines : List (List ℕ)) → IfErr result (λ fault. FailsAs fault (reading_from (program_seen self.old) number (line.now ∷ lines))) }
    {
        let mut tokens = Tokens::new(line);
        if !tokens.has_next() {
            return Ok(());
        }
        match read_line(alloc, &mut tokens) {
            Ok(said) => self.add(alloc, said, number),
            Err(fault) => Err(fault.at(number)),
        }
    }

    // Adds what a line says.
    fn add(&mut self, alloc: Global, line: Line<'t>, number: u32) -> Result<(), AsmFault>
        requires good { IsGoodProgram self.old }
        requires few { IsLineInRange (line_seen line) }
        ensures good { OnOk result (IsGoodProgram self.new) }
        ensures into { OnOk result (IsReadInto (program_seen self.old) number (line_seen line.entry) (program_seen self.new)) }
        ensures fault { IfErr result (λ fault. FailsWith fault (place_fault (program_seen self.old) number (line_seen line.entry))) }
    {
        match line {
            Line::Mark(name) => self.mark(name, number),
            Line::Begin { name, parameters } => self.begin(
                alloc,
                name,
                parameters.as_slice(),
                number,
            ),
            Line::End => self.end(alloc, number),
            Line::Use { name, handed } => self.put(name, handed, number),
            Line::Instruct(action) => self.instruct(action, number),
        }
    }

    // Gives this name to the next item.
    fn mark(&mut self, name: &'t [u8], number: u32) -> Result<(), AsmFault>
        requires good { IsGoodProgram self.old }
        ensures good { OnOk result (IsGoodProgram self.new) }
        ensures into { OnOk result (IsReadInto (program_seen self.old) number (Marks name.now) (program_seen self.new)) }
        ensures fault { IfErr result (λ fault. FailsWith fault (place_fault (program_seen self.old) number (Marks name.now))) }
    {
        self.current.mark(name, number)
    }

    // Adds an instruction.
    fn instruct(&mut self, action: Action<Source<'t>>, number: u32) -> Result<(), AsmFault>
        requires good { IsGoodProgram self.old }
        requires range { IsInRange (instruction_by (λ label. 0) (mapped seen action)) }
        ensures good { OnOk result (IsGoodProgram self.new) }
        ensures into { OnOk result (IsReadInto (program_seen self.old) number (Instructs (mapped seen action.entry)) (program_seen self.new)) }
        ensures fault { IfErr result (λ fault. FailsWith fault (place_fault (program_seen self.old) number (Instructs (mapped seen action.entry)))) }
    {
        self.current.add(OpenKind::Do(action), 1, number)
    }

    // Adds a use of a block.
    fn put(&mut self, name: &'t [u8], handed: Vec<Source<'t>>, number: u32) -> Result<(), AsmFault>
        requires good { IsGoodProgram self.old }
        ensures good { OnOk result (IsGoodProgram self.new) }
        ensures into { OnOk result (IsReadInto (program_seen self.old) number (Uses name.now (labels_seen handed.entry.items)) (program_seen self.new)) }
        ensures fault { IfErr result (λ fault. FailsWith fault (place_fault (program_seen self.old) number (Uses name.now (labels_seen handed.entry.items)))) }
    {
        let Some(block) = self.block_number(name) else {
            return Err(AsmFault::NoBlock { line: number });
        };
        if handed.len() != self.bodies[block].parameters {
            return Err(AsmFault::WrongCount { line: number });
        }
        let size = self.size_of(block);
        self.current
            .add(OpenKind::Use { block, handed }, size, number)
    }

    // Begins a block.
    fn begin(
        &mut self,
        alloc: Global,
        name: &'t [u8],
        parameters: &[&'t [u8]],
        number: u32,
    ) -> Result<(), AsmFault>
        requires good { IsGoodProgram self.old }
        requires few { length parameters.now ≤ 8 }
        ensures good { OnOk result (IsGoodProgram self.new) }
        ensures into { OnOk result (IsReadInto (program_seen self.old) number (Begins name.now (names_seen parameters.now)) (program_seen self.new)) }
        ensures fault { IfErr result (λ fault. FailsWith fault (place_fault (program_seen self.old) number (Begins name.now (names_seen parameters.now)))) }
    {
        if self.outer.is_some() {
            return Err(AsmFault::Misplaced { line: number });
        }
        if has_twice(parameters) {
            return Err(AsmFault::Twice { line: number });
        }
        if self.block_number(name).is_some() {
            return Err(AsmFault::Twice { line: number });
        }
        if self.bodies.len() >= MOST_BLOCKS {
            return Err(AsmFault::TooMany { line: number });
        }
        let block = OpenBody::new(alloc, parameters.len());
        let main = mem::replace(&mut self.current, block);
        self.outer = Some(Outer {
            main,
            name,
            line: number,
        });
        self.current.name_parameters(parameters)?;
        Ok(())
    }

    // Ends a block.
    fn end(&mut self, alloc: Global, number: u32) -> Result<(), AsmFault>
        requires good { IsGoodProgram self.old }
        ensures good { OnOk result (IsGoodProgram self.new) }
        ensures into { OnOk result (IsReadInto (program_seen self.old) number Ends (program_seen self.new)) }
        ensures fault { IfErr result (λ fault. FailsWith fault (place_fault (program_seen self.old) number Ends)) }
    {
        let Some(outer) = &self.outer else {
            return Err(AsmFault::Misplaced { line: number });
        };
        if self.current.items.is_empty() {
            return Err(AsmFault::EmptyBlock { line: number });
        }
        let name = outer.name;
        let unknown = first_unknown(&self.current);
        let body = close_body(alloc, &self.current)?;
        let block = self.bodies.len();
        self.bodies.push(body)?;
        self.blocks.insert(name, block)?;
        self.unknown = earlier(self.unknown, unknown);
        self.leave_block();
        Ok(())
    }

    // Ends the block: lines are added to main again.
    fn leave_block(&mut self)
        ensures { (outer : Outer) → self.old.outer ≡ Some outer → self.new ≡ record self.old { current = outer.main; outer = None } }
    {
        if let Some(outer) = self.outer.take() {
            self.current = outer.main;
        }
    }

    // The number of the block with this name that has ended.
    fn block_number(&self, name: &[u8]) -> Option<usize>
        ensures { result ≡ known_as self.now.blocks.entries name.now }
    {
        block_named(&self.blocks, name)
    }

    // How many instructions a block expands to.
    fn size_of(&self, block: usize) -> usize
        requires good { IsGoodProgram self.now }
        requires known { block < length self.now.bodies.items }
        ensures size { result ≡ size_of (tree_at self.now.bodies.items block) }
        ensures few { result ≤ most }
    {
        let body = &self.bodies[block];
        body.starts[body.items.as_slice().len()] as usize
    }
}

// Whether a name is there twice.
fn has_twice(names: &[&[u8]]) -> bool
    ensures { result ≡ has_twice (names_seen names.now) }
{
    match names {
        [] => false,
        [name, others @ ..] => is_one_of(others, name) || has_twice(others),
    }
}

// Whether a name is in a list.
fn is_one_of(names: &[&[u8]], name: &[u8]) -> bool
    ensures { result ≡ has_name (names_seen names.now) name.now }
{
    match names {
        [] => false,
        [other, others @ ..] => is_same(other, name) || is_one_of(others, name),
    }
}

fn is_same(name: &[u8], other: &[u8]) -> bool
    ensures { result ≡ bytes_eq name.now other.now }
{
    name == other
}

// The earlier of two lines; either may be missing.
fn earlier(line: Option<u32>, other: Option<u32>) -> Option<u32>
    ensures { result ≡ earlier line other }
{
    match (line, other) {
        (None, other) => other,
        (Some(line), None) => Some(line),
        (Some(line), Some(other)) => Some(line.min(other)),
    }
}

// The bodies of a text: its blocks, and main last.
pub(crate) fn read_bodies(alloc: Global, text: &[u8]) -> Result<Vec<Body>, AsmFault>
    requires { length text.now ≤ longest }
    ensures bodies { IfOk result (λ bodies. AreBodiesOf text.now bodies.items) }
    ensures fault { IfErr result (FailsText text.now) }
{
    let mut program = Program::new(alloc);
    bodies_into(alloc, text, &mut program)
}

// The bodies of a text, which is read into an empty program.
fn bodies_into<'t>(
    alloc: Global,
    text: &'t [u8],
    program: &mut Program<'t>,
) -> Result<Vec<Body>, AsmFault>
    requires short { length text.now ≤ longest }
    requires nothing { program_seen program.old ≡ nothing_yet }
    requires good { IsGoodProgram program.old }
    ensures bodies { IfOk result (λ bodies. AreBodiesOf text.now bodies.items) }
    ensures fault { IfErr result (FailsText text.now) }
{
    read_lines(alloc, text, program)?;
    take_bodies(alloc, program)
}

// Reads the lines of a text into an empty program.
fn read_lines<'t>(alloc: Global, text: &'t [u8], program: &mut Program<'t>) -> Result<(), AsmFault>
    requires short { length text.now ≤ longest }
    requires nothing { program_seen program.old ≡ nothing_yet }
    requires good { IsGoodProgram program.old }
    ensures good { OnOk result (IsGoodProgram program.new) }
    ensures read { OnOk result (reading nothing_yet (lines_with_tokens text.now) ≡ Ok (program_seen program.new)) }
    ensures fault { IfErr result (λ fault. FailsAs fault (reading nothing_yet (lines_with_tokens text.now))) }
{
    let mut number = 1;
    for line in Lines::new(text) {
        program.read(alloc, line, number)?;
        number += 1;
    }
    Ok(())
}

// The bodies of a program whose lines were read: its blocks, and main last.
fn take_bodies(alloc: Global, program: &mut Program) -> Result<Vec<Body>, AsmFault>
    requires good { IsGoodProgram program.old }
    ensures bodies { (text : List ℕ) → reading nothing_yet (lines_with_tokens text) ≡ Ok (program_seen program.old) → IfOk result (λ bodies. AreBodiesOf text bodies.items) }
    ensures fault { (text : List ℕ) → reading nothing_yet (lines_with_tokens text) ≡ Ok (program_seen program.old) → IfErr result (FailsText text) }
{
    let main = main_of(alloc, program)?;
    program.bodies.push(main)?;
    Ok(mem::replace(&mut program.bodies, Vec::new(alloc)))
}

// Main, if neither a line nor the text as a whole is at fault.
fn main_of(alloc: Global, program: &Program) -> Result<Body, AsmFault>
    requires good { IsGoodProgram program.now }
    ensures free { OnOk result (last_fault (program_seen program.now).begun (program_seen program.now) ≡ None) }
    ensures main { IfOk result (λ main. IsClosedAs program.now.current main) }
    ensures fault { IfErr result (λ fault. FailsWith fault (last_fault (program_seen program.now).begun (program_seen program.now))) }
{
    if let Some(outer) = &program.outer {
        return Err(AsmFault::Misplaced { line: outer.line });
    }
    if program.current.items.is_empty() {
        return Err(AsmFault::Empty);
    }
    let unknown = first_unknown(&program.current);
    if let Some(line) = earlier(program.unknown, unknown) {
        return Err(AsmFault::NoLabel { line });
    }
    let main = close_body(alloc, &program.current)?;
    Ok(main)
}
