// The place of an element. Nothing here takes memory.
ghost use Rattle.std.specs.Prelude.{◌≡◌, ◌+◌, ◌<◌, ◌≤◌};
ghost use Rattle.hex_geometry.specs.Position.{IsInside};
ghost use Rattle.world_gen.specs.Inner.Answers.{IsChosen, IsInRow, IsSearched, IsTried};
ghost use Rattle.world_gen.specs.Inner.Open.{AllOpen, IsFenced};
ghost use Rattle.world_gen.specs.Placing.{after_begun, figure_begun, draws_of, tried_at, tried_figure};

use crate::draft::Draft;
use crate::element::Element;
use crate::spot::{Figure, Spot};
use ant_random::Stream;
use hex_geometry::{Dir, Pos};

// The number of random places at which an element is tried.
const TRIES: u32 = 50;

impl Draft {
    // The first of 50 tries that fits, or otherwise the first place of the grid.
    pub fn choose(&self, stream: &mut Stream, element: Element) -> Option<Spot>
        requires fence { IsFenced self.now.width self.now.height self.now.blocked.items }
        requires wide { 1 ≤ self.now.width }
        requires high { 1 ≤ self.now.height }
        requires early { stream.old.place < 1000000 }
        ensures seed { stream.new.seed ≡ stream.old.seed }
        ensures place { stream.new.place ≤ stream.old.place + 151 }
        ensures chosen { IsChosen (AllOpen self.now.width self.now.height self.now.blocked.items) stream.old.seed self.now.width self.now.height
            element stream.old.place result stream.new.place }
    {
        let figure = begin(stream, element);
        match self.try_spots(stream, figure) {
            Some(spot) => Some(spot),
            None => self.first_place(figure),
        }
    }

    // The first of 50 tries that fits.
    fn try_spots(&self, stream: &mut Stream, figure: Figure) -> Option<Spot>
        requires fence { IsFenced self.now.width self.now.height self.now.blocked.items }
        requires wide { 1 ≤ self.now.width }
        requires high { 1 ≤ self.now.height }
        requires early { stream.old.place < 1000001 }
        ensures seed { stream.new.seed ≡ stream.old.seed }
        ensures place { stream.new.place ≤ stream.old.place + 150 }
        ensures tried { IsTried (AllOpen self.now.width self.now.height self.now.blocked.items) stream.old.seed self.now.width self.now.height figure
            stream.old.place result stream.new.place }
    {
        for number in 0..TRIES {
            let spot = self.draw_spot(stream, figure);
            if self.fits(spot) {
                return Some(spot);
            }
        }
        None
    }

    // The spot of the next try.
    fn draw_spot(&self, stream: &mut Stream, figure: Figure) -> Spot
        requires wide { 1 ≤ self.now.width }
        requires high { 1 ≤ self.now.height }
        requires early { stream.old.place < 1000200 }
        ensures seed { stream.new.seed ≡ stream.old.seed }
        ensures place { stream.new.place ≡ stream.old.place + draws_of figure }
        ensures spot { result ≡ tried_at stream.old.seed self.now.width self.now.height figure stream.old.place }
    {
        let x = stream.draw(self.width as u32) as u16;
        let y = stream.draw(self.height as u32) as u16;
        let place = Pos { x, y };
        let figure = draw_figure(stream, figure);
        Spot { figure, place }
    }

    // The first place of the grid, in row order, at which it fits.
    fn first_place(&self, figure: Figure) -> Option<Spot>
        requires { IsFenced self.now.width self.now.height self.now.blocked.items }
        ensures { IsSearched (AllOpen self.now.width self.now.height self.now.blocked.items) figure (IsInside self.now.width self.now.height) result }
    {
        for y in 0..self.height {
            if let Some(spot) = self.first_in_row(figure, y) {
                return Some(spot);
            }
        }
        None
    }

    // The first place of a row at which it fits.
    fn first_in_row(&self, figure: Figure, y: u16) -> Option<Spot>
        requires { IsFenced self.now.width self.now.height self.now.blocked.items }
        ensures { IsSearched (AllOpen self.now.width self.now.height self.now.blocked.items) figure (IsInRow self.now.width y) result }
    {
        for x in 0..self.width {
            let place = Pos { x, y };
            let spot = Spot { figure, place };
            if self.fits(spot) {
                return Some(spot);
            }
        }
        None
    }
}

// The figure of an element before its tries: a rock's radius is drawn now, once, and a blob has direction 0.
fn begin(stream: &mut Stream, element: Element) -> Figure
    requires early { stream.old.place < 1000000 }
    ensures seed { stream.new.seed ≡ stream.old.seed }
    ensures place { stream.new.place ≡ after_begun stream.old.place element }
    ensures figure { result ≡ figure_begun stream.old.seed stream.old.place element }
{
    match element {
        Element::Hill(colour) => Figure::Hill(colour),
        Element::Rock => Figure::Rock(1 + stream.draw(4) as u8),
        Element::Blob => Figure::Blob(Dir::East),
    }
}

// The figure in a try: a blob's direction is drawn in each.
fn draw_figure(stream: &mut Stream, figure: Figure) -> Figure
    requires early { stream.old.place < 1000202 }
    ensures seed { stream.new.seed ≡ stream.old.seed }
    ensures place { stream.new.place + 2 ≡ stream.old.place + draws_of figure }
    ensures figure { result ≡ tried_figure stream.old.seed stream.old.place figure }
{
    match figure {
        Figure::Blob(_) => Figure::Blob(Dir::new(stream.draw(3) as u8)),
        other => other,
    }
}
