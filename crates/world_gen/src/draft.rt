// A world in the making: the kind of each cell, and where nothing may be placed.
ghost use Rattle.hex_geometry.specs.RowOrder.{index_of, pos_at};
ghost use Rattle.cell_world.specs.Limits.{most_size};
ghost use Rattle.hex_geometry.specs.Position.{IsInner, is_on_rim};
ghost use Rattle.std.specs.Prelude.{◌≡◌, ◌+◌, ◌*◌, ◌++◌, ◌∷◌, [], ◌<◌, ◌≤◌, true, Contains, IfOk, OnOk, length, slice_set};
ghost use Rattle.world_gen.specs.Inner.Open.{is_unblocked};
ghost use Rattle.world_gen.specs.Inner.Sets.{IsRound, SetsWhere};
ghost use Rattle.world_gen.specs.Inner.Drafts.{IsStamped, bare_blocked, bare_kind, bare_kinds};

use cell_world::Kind;
use hex_geometry::{Dir, OutOfMemory, Pos, adjacent, index_of, is_on_rim, pos_at};
use std::alloc::Global;

// The kinds in row order, and for each whether its cell is on the rim or touched by an element.
#[derive(Drop)]
pub struct Draft {
    pub width: u16,
    pub height: u16,
    pub blocked: Vec<bool>,
    pub kinds: Vec<Kind>,
}

impl Draft {
    // A draft of these sizes without elements.
    pub fn bare(alloc: Global, width: u16, height: u16) -> Result<Draft, OutOfMemory>
        requires wide { 1 ≤ width }
        requires narrow { width ≤ most_size }
        requires low { height ≤ most_size }
        ensures width { IfOk result (λ draft. draft.width ≡ width) }
        ensures height { IfOk result (λ draft. draft.height ≡ height) }
        ensures blocked { IfOk result (λ draft. draft.blocked.items ≡ bare_blocked width height (width * height)) }
        ensures kinds { IfOk result (λ draft. draft.kinds.items ≡ bare_kinds width height (width * height)) }
    {
        let area = width as usize * height as usize;
        let mut draft = Draft {
            width,
            height,
            blocked: Vec::with_capacity(alloc, area)?,
            kinds: Vec::with_capacity(alloc, area)?,
        };
        for number in 0..width as u32 * height as u32 {
            draft.add(number)?;
        }
        Ok(draft)
    }

    // Adds the cell with this number in row order: rock on the rim, which is blocked, and clear inside.
    fn add(&mut self, number: u32) -> Result<(), OutOfMemory>
        requires { number < self.old.width * self.old.height }
        ensures width { self.new.width ≡ self.old.width }
        ensures height { self.new.height ≡ self.old.height }
        ensures blocked { OnOk result (self.new.blocked.items ≡ self.old.blocked.items ++ is_on_rim self.old.width self.old.height (pos_at self.old.width number) ∷ []) }
        ensures kinds { OnOk result (self.new.kinds.items ≡ self.old.kinds.items ++ bare_kind
            (is_on_rim self.old.width self.old.height (pos_at self.old.width number)) ∷ []) }
    {
        let (width, height) = (self.width, self.height);
        let rim = is_on_rim(width, height, pos_at(width, number as usize));
        let kind = bare_kind(rim);
        self.blocked.push(rim)?;
        self.kinds.push(kind)?;
        Ok(())
    }

    // Whether the cell at `p` is inside and open.
    #[inline]
    pub fn is_open(&self, p: Pos) -> bool
        requires { length self.now.blocked.items ≡ self.now.width * self.now.height }
        ensures { result ≡ is_unblocked self.now.width self.now.height self.now.blocked.items p }
    {
        p.x < self.width && p.y < self.height && !self.blocked[index_of(self.width, p)]
    }

    // Paints these cells, and blocks them and their neighbours. None of them is on the rim.
    pub fn stamp_all(&mut self, cells: &[Pos], kind: Kind)
        requires blocked { length self.old.blocked.items ≡ self.old.width * self.old.height }
        requires kinds { length self.old.kinds.items ≡ self.old.width * self.old.height }
        requires narrow { self.old.width ≤ most_size }
        requires low { self.old.height ≤ most_size }
        requires inner { (p : Pos) → Contains cells.now p → IsInner self.old.width self.old.height p }
        ensures width { self.new.width ≡ self.old.width }
        ensures height { self.new.height ≡ self.old.height }
        ensures stamped { IsStamped self.old.width self.old.height cells.now kind self.old.blocked.items self.new.blocked.items self.old.kinds.items
            self.new.kinds.items }
    {
        let (width, height) = (self.width, self.height);
        for cell in cells {
            block_round(&mut self.blocked, width, height, *cell);
            paint(&mut self.kinds, width, *cell, kind);
        }
    }
}

// Rock on the rim, and nothing inside.
fn bare_kind(rim: bool) -> Kind
    ensures { result ≡ bare_kind rim }
{
    if rim { Kind::Rock } else { Kind::Clear }
}

fn paint(kinds: &mut [Kind], width: u16, p: Pos, kind: Kind)
    requires { index_of width p < length kinds.old }
    ensures { kinds.new ≡ slice_set kinds.old (index_of width p) kind }
{
    kinds[index_of(width, p)] = kind;
}

fn block(blocked: &mut [bool], width: u16, p: Pos)
    requires { index_of width p < length blocked.old }
    ensures { blocked.new ≡ slice_set blocked.old (index_of width p) true }
{
    blocked[index_of(width, p)] = true;
}

// Blocks a cell that isn't on the rim, and its neighbours.
fn block_round(blocked: &mut [bool], width: u16, height: u16, p: Pos)
    requires full { length blocked.old ≡ width * height }
    requires narrow { width ≤ most_size }
    requires low { height ≤ most_size }
    requires inner { IsInner width height p }
    ensures { SetsWhere width height true (IsRound p) blocked.old blocked.new }
{
    block(blocked, width, p);
    for number in 0..6u8 {
        block(blocked, width, adjacent(p, Dir::new(number)));
    }
}
