// What the page of `--help` says about the table.
ghost use Rattle.std.specs.Prelude.{◌≡◌, length, slice_index_or, codes};
ghost use Rattle.command_words.specs.Help.{command_text, default_text, free_text, free_texts, has_free, more_text, needed_text, needed_texts, option_line, place_line, place_lines, range_text, table_text, takes_line, value_text, without_text};
ghost use Rattle.command_words.specs.Table.{default_of, is_needed, kinds, means_all, options, values_of};
ghost use Rattle.command_words.specs.declared.slot.Slot.TheVariants.{FileName};
ghost use Rattle.command_words.specs.declared.slot.Place.TheVariants.{Word};
ghost use Rattle.command_words.specs.declared.table.CommandKind.TheVariants.{Run};
ghost use Rattle.command_words.specs.declared.table.Choice.TheVariants.{Seed};

use crate::table::{MOST_NAMES, kinds, options};
use crate::{Choice, CommandKind, NumberKind, Place, Slot};
use ant_base::{Each, Failed, Layout, NumberedTexts, Sink, layout};

/// What the page of `--help` says about the table. For each command: how it is called, a sentence, the limits of its
/// numbers and lists, and its options. For each option: what it is for, its limits, and its default.
#[derive(Clone, Copy)]
pub struct HelpPage;

impl Layout for HelpPage {
    ghost text = { λ _. table_text };

    #[tactic(auto, unfolding(crate::specs::Help::table_text))]
    fn push_to<K: Sink>(&self, sink: &mut K) -> Result<(), Failed> {
        layout!(Each(Commands), "\nOptions:\n", Each(Options)).push_to(sink)
    }
}

// The commands.
#[derive(Clone, Copy)]
struct Commands;

impl NumberedTexts for Commands {
    ghost count = { λ _. length kinds };

    ghost part = { λ _ at. command_text (slice_index_or kinds at Run) };

    fn count(&self) -> usize {
        kinds().len()
    }

    fn push_part<K: Sink>(&self, at: usize, sink: &mut K) -> Result<(), Failed> {
        Command(kinds()[at]).push_to(sink)
    }
}

// A command.
#[derive(Clone, Copy)]
struct Command(CommandKind);

impl Layout for Command {
    ghost text = { λ command. command_text command.0 };

    #[tactic(auto, unfolding(crate::specs::Help::command_text))]
    fn push_to<K: Sink>(&self, sink: &mut K) -> Result<(), Failed> {
        let kind = self.0;
        let choices = kind.choices();
        layout!(
            "  ",
            kind.word(),
            kind.names(),
            NeededOptions(choices),
            More(choices),
            "\n      ",
            kind.says(),
            "\n",
            PlaceLines(kind.places()),
            Takes(choices)
        )
        .push_to(sink)
    }
}

// That a command may have more options than it needs.
#[derive(Clone, Copy)]
struct More(&'static [Choice]);

impl Layout for More {
    ghost text = { λ more. more_text more.0.now };

    #[tactic(auto, unfolding(crate::specs::Help::more_text))]
    fn push_to<K: Sink>(&self, sink: &mut K) -> Result<(), Failed> {
        if has_free(self.0) {
            return " [OPTION]..".push_to(sink);
        }
        Ok(())
    }
}

// Which they are.
#[derive(Clone, Copy)]
struct Takes(&'static [Choice]);

impl Layout for Takes {
    ghost text = { λ takes. takes_line takes.0.now };

    #[tactic(auto, unfolding(crate::specs::Help::takes_line))]
    fn push_to<K: Sink>(&self, sink: &mut K) -> Result<(), Failed> {
        if has_free(self.0) {
            return layout!("      takes", FreeOptions(self.0), "\n").push_to(sink);
        }
        Ok(())
    }
}

// Whether some of these options may be left out.
#[tactic(auto, unfolding(crate::specs::Help::has_free))]
fn has_free(choices: &[Choice]) -> bool
    ensures { result ≡ has_free choices.now }
{
    choices.iter().any(|choice| !choice.is_needed())
}

// Those of these options that are needed.
#[derive(Clone, Copy)]
struct NeededOptions(&'static [Choice]);

impl Layout for NeededOptions {
    ghost text = { λ list. needed_texts list.0.now };

    #[tactic(auto, unfolding(crate::specs::Help::needed_texts))]
    fn push_to<K: Sink>(&self, sink: &mut K) -> Result<(), Failed> {
        Each(*self).push_to(sink)
    }
}

impl NumberedTexts for NeededOptions {
    ghost count = { λ options. length options.0.now };

    ghost part = { λ options at. needed_text (slice_index_or options.0.now at Seed) };

    fn count(&self) -> usize {
        self.0.len()
    }

    fn push_part<K: Sink>(&self, at: usize, sink: &mut K) -> Result<(), Failed> {
        let choice = self.0[at];
        let part = if choice.is_needed() {
            Some(layout!(" ", choice.word(), " N"))
        } else {
            None
        };
        part.push_to(sink)
    }
}

// Those of these options that may be left out.
#[derive(Clone, Copy)]
struct FreeOptions(&'static [Choice]);

impl Layout for FreeOptions {
    ghost text = { λ list. free_texts list.0.now };

    #[tactic(auto, unfolding(crate::specs::Help::free_texts))]
    fn push_to<K: Sink>(&self, sink: &mut K) -> Result<(), Failed> {
        Each(*self).push_to(sink)
    }
}

impl NumberedTexts for FreeOptions {
    ghost count = { λ options. length options.0.now };

    ghost part = { λ options at. free_text (slice_index_or options.0.now at Seed) };

    fn count(&self) -> usize {
        self.0.len()
    }

    fn push_part<K: Sink>(&self, at: usize, sink: &mut K) -> Result<(), Failed> {
        let choice = self.0[at];
        let part = if choice.is_needed() {
            None
        } else {
            Some(layout!(" ", choice.word()))
        };
        part.push_to(sink)
    }
}

// The limits of a number.
#[derive(Clone, Copy)]
struct Range(NumberKind);

impl Layout for Range {
    ghost text = { λ range. range_text range.0 };

    fn push_to<K: Sink>(&self, sink: &mut K) -> Result<(), Failed> {
        layout!(", ", self.0.least(), " to ", self.0.most()).push_to(sink)
    }
}

// The lines of those of these places that have limits.
#[derive(Clone, Copy)]
struct PlaceLines(&'static [Place]);

impl Layout for PlaceLines {
    ghost text = { λ list. place_lines list.0.now };

    #[tactic(auto, unfolding(crate::specs::Help::place_lines))]
    fn push_to<K: Sink>(&self, sink: &mut K) -> Result<(), Failed> {
        Each(*self).push_to(sink)
    }
}

impl NumberedTexts for PlaceLines {
    ghost count = { λ places. length places.0.now };

    ghost part = { λ places at. place_line (slice_index_or places.0.now at (Word FileName)) };

    fn count(&self) -> usize {
        self.0.len()
    }

    fn push_part<K: Sink>(&self, at: usize, sink: &mut K) -> Result<(), Failed> {
        match self.0[at] {
            Place::Word(Slot::Number(kind)) => {
                layout!("      ", kind.name(), Range(kind), "\n").push_to(sink)
            }
            Place::Names(list) => {
                let fewest = list.fewest();
                layout!(
                    "      ",
                    list.name(),
                    ", ",
                    fewest,
                    " to ",
                    MOST_NAMES,
                    " names\n"
                )
                .push_to(sink)
            }
            _ => Ok(()),
        }
    }
}

// The options.
#[derive(Clone, Copy)]
struct Options;

impl NumberedTexts for Options {
    ghost count = { λ _. length options };

    ghost part = { λ _ at. option_line (slice_index_or options at Seed) };

    fn count(&self) -> usize {
        options().len()
    }

    fn push_part<K: Sink>(&self, at: usize, sink: &mut K) -> Result<(), Failed> {
        OptionLine(options()[at]).push_to(sink)
    }
}

// An option.
#[derive(Clone, Copy)]
struct OptionLine(Choice);

impl Layout for OptionLine {
    ghost text = { λ line. option_line line.0 };

    #[tactic(auto, unfolding(crate::specs::Help::option_line))]
    fn push_to<K: Sink>(&self, sink: &mut K) -> Result<(), Failed> {
        let word = self.0.word();
        let value = value_of(self.0.values());
        let spaces = Each(Spaces(12usize.saturating_sub(word.len())));
        layout!(
            "  ",
            word,
            value,
            spaces,
            self.0.about(),
            Default(self.0),
            "\n"
        )
        .push_to(sink)
    }
}

// What follows an option's word.
fn value_of(values: &[Place]) -> &'static str
    ensures { result.now ≡ value_text values.now }
{
    match values {
        [Place::Word(Slot::Number(_))] => " N",
        [Place::Word(Slot::Dumps)] => " D",
        _ => "  ",
    }
}

// The limits of an option's number, and its default.
#[derive(Clone, Copy)]
struct Default(Choice);

impl Layout for Default {
    ghost text = { λ line. default_text (values_of line.0) (is_needed line.0) (means_all line.0) (default_of line.0) };

    fn push_to<K: Sink>(&self, sink: &mut K) -> Result<(), Failed> {
        match (self.0.values(), self.0.is_needed()) {
            ([Place::Word(Slot::Number(kind))], true) => layout!(Range(*kind), "; needed").push_to(
                sink,
            ),
            ([Place::Word(Slot::Number(kind))], false) => {
                let without = Without {
                    all: self.0.means_all(),
                    default: self.0.default(),
                };
                layout!(Range(*kind), "; ", without).push_to(sink)
            }
            _ => Ok(()),
        }
    }
}

// The default of an option: all, or a number.
#[derive(Clone, Copy)]
struct Without {
    all: bool,
    default: u32,
}

impl Layout for Without {
    ghost text = { λ without. without_text without.all without.default };

    fn push_to<K: Sink>(&self, sink: &mut K) -> Result<(), Failed> {
        if self.all {
            return "all".push_to(sink);
        }
        self.default.push_to(sink)
    }
}

// This many spaces.
#[derive(Clone, Copy)]
struct Spaces(usize);

impl NumberedTexts for Spaces {
    ghost count = { λ spaces. spaces.0 };

    ghost part = { λ _ _. codes " " };

    fn count(&self) -> usize {
        self.0
    }

    fn push_part<K: Sink>(&self, _at: usize, sink: &mut K) -> Result<(), Failed> {
        " ".push_to(sink)
    }
}
