// The text of a standing.
ghost use Rattle.std.specs.Prelude.{◌<◌, All, false, length, slice_index_or};
ghost use Rattle.ant_base.specs.Sink.{Pushed};
ghost use Rattle.tournament.specs.Inner.Blank.{blank};
ghost use Rattle.tournament.specs.Text.{table_line_text, standing_text};

use crate::names::Names;
use crate::standing::{Line, Standing};
use ant_base::{Each, Failed, Layout, NumberedTexts, Sink, layout};

// The lines of a standing; all its players have names.
#[derive(Clone, Copy)]
struct TableLines<'s> {
    standing: &'s Standing,
    names: &'s Names,
    leads: bool,
    ghost named: { All (λ line. line.player < length names.now) standing.now },
}

impl NumberedTexts for TableLines<'_> {
    ghost count = { λ lines. length lines.standing.now };

    ghost part = { λ lines at. table_line_text lines.leads lines.names.now (slice_index_or lines.standing.now at blank) };

    fn count(&self) -> usize {
        self.standing.len()
    }

    fn push_part<K: Sink>(&self, at: usize, sink: &mut K) -> Result<(), Failed> {
        let line = self.standing.item(at);
        push_line(self.leads, self.names, line, sink)
    }
}

#[tactic(auto, unfolding(crate::specs::Text::table_line_text))]
fn push_line<K: Sink>(leads: bool, names: &Names, line: Line, sink: &mut K) -> Result<(), Failed>
    requires { line.player < length names.now }
    ensures { Pushed (K.state sink.old) (K.state sink.new) (table_line_text leads names.now line) result }
{
    let name = names.of_player(line.player);
    layout!(
        line.points,
        " points: ",
        name,
        " (",
        line.won,
        " won, ",
        line.drawn,
        " drawn, ",
        line.lost,
        " lost)",
        LeadPart { leads, line }
    )
    .push_to(sink)
}

// The end of a player's line.
#[derive(Clone, Copy)]
struct LeadPart {
    leads: bool,
    line: Line,
}

impl Layout for LeadPart {
    ghost use Rattle.tournament.specs.Text.{lead_part};

    ghost text = { λ part. lead_part part.leads part.line };

    fn push_to<K: Sink>(&self, sink: &mut K) -> Result<(), Failed> {
        if self.leads {
            return layout!(", lead ", Lead(self.line), "\n").push_to(sink);
        }
        "\n".push_to(sink)
    }
}

// By how much food a player leads.
#[derive(Clone, Copy)]
struct Lead(Line);

impl Layout for Lead {
    ghost use Rattle.tournament.specs.Text.{lead_text};

    ghost text = { λ lead. lead_text lead.0 };

    fn push_to<K: Sink>(&self, sink: &mut K) -> Result<(), Failed> {
        let own = self.0.food_for;
        let others = self.0.food_against;
        if own < others {
            return layout!("-", others - own).push_to(sink);
        }
        (own - others).push_to(sink)
    }
}

/// Pushes a line for each player, best first, such as `3 points: b (1 won, 1 drawn, 0 lost)`. Each player of the
/// standing has a name. At `Failed` a prefix of the lines was pushed, and the sink's count of faults rose. It takes no
/// memory.
pub fn push_standing<K: Sink>(
    standing: &Standing,
    names: &Names,
    sink: &mut K,
) -> Result<(), Failed>
    requires { All (λ line. line.player < length names.now) standing.now }
    ensures { Pushed (K.state sink.old) (K.state sink.new) (standing_text false names.now standing.now) result }
{
    push_standing_with(standing, false, names, sink)
}

/// Pushes the same lines. With leads each ends as in `3 points: b (1 won, 1 drawn, 0 lost), lead 3`: the player's own
/// food minus its opponents', as a whole number.
pub fn push_standing_with<K: Sink>(
    standing: &Standing,
    leads: bool,
    names: &Names,
    sink: &mut K,
) -> Result<(), Failed>
    requires { All (λ line. line.player < length names.now) standing.now }
    ensures { Pushed (K.state sink.old) (K.state sink.new) (standing_text leads names.now standing.now) result }
{
    Each(TableLines {
        standing,
        names,
        leads,
    })
    .push_to(sink)
}
