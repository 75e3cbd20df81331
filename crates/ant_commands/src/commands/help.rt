// The commands `--help` and `--version`.
ghost use Rattle.ant_base.specs.Sink.{Pushed};
ghost use Rattle.ant_commands.specs.Jobs.{help_job, version_job};
ghost use Rattle.ant_commands.specs.Help.{head_lines, help_text, tail_lines, version_text};
ghost use Rattle.ant_commands.specs.Inner.Reading.{CarriesOut, ending_of};

use crate::stop::{CommandStop, after_push};
use ant_base::{Failed, Layout, Shelf, Sink, layout};
use command_words::HelpPage;

// The first lines: what the program is, and how it is called.
#[derive(Clone, Copy)]
struct HeadLines;

impl Layout for HeadLines {
    ghost text = { λ _. head_lines };

    #[tactic(auto, unfolding(crate::specs::Help::head_lines))]
    fn push_to<K: Sink>(&self, sink: &mut K) -> Result<(), Failed> {
        concat!(
            "ants 1.2.0-dev plays the ant world of the ICFP Programming Contest 2004.\n",
            "\n",
            "usage: ants COMMAND WORD.. [OPTION]..\n",
            "\n",
            "Give a file for each word in capitals, or a number if its line says so; - is\n",
            "standard input. Options come last, in any order.\n",
            "\n"
        )
        .push_to(sink)
    }
}

// What workers are for, the exit statuses, and where to read on.
#[derive(Clone, Copy)]
struct TailLines;

impl Layout for TailLines {
    ghost text = { λ _. tail_lines };

    #[tactic(auto, unfolding(crate::specs::Help::tail_lines))]
    fn push_to<K: Sink>(&self, sink: &mut K) -> Result<(), Failed> {
        concat!(
            "\n",
            "Workers of run, save, resume and advance look ahead, which is slower; those of\n",
            "cup play games at the same time, which is faster. None changes what is printed.\n",
            "\n",
            "Exit status:\n",
            "  0  all of the output was written\n",
            "  1  a word isn't UTF-8; nothing is written\n",
            "  2  the words are not a command\n",
            "  3  a file could not be read\n",
            "  4  the output failed\n",
            "  5  a file was refused, or an element of a world has no room\n",
            "  6  out of memory\n",
            "\n",
            "docs/RULES.md has the rules and the files, docs/COMMANDS.md the commands.\n"
        )
        .push_to(sink)
    }
}

// Pushes the page.
#[tactic(auto, unfolding(crate::specs::Help::help_text))]
fn push_help<K: Sink>(out: &mut K) -> Result<(), Failed>
    ensures { Pushed (K.state out.old) (K.state out.new) help_text result }
{
    layout!(HeadLines, HelpPage, TailLines).push_to(out)
}

// Pushes the line of the version.
#[tactic(auto, unfolding(crate::specs::Help::version_text))]
fn push_version<K: Sink>(out: &mut K) -> Result<(), Failed>
    ensures { Pushed (K.state out.old) (K.state out.new) version_text result }
{
    "ants 1.2.0-dev\n".push_to(out)
}

/// Writes the page about all commands.
pub fn help<'w, S: Shelf, K: Sink>(shelf: &mut S, out: &mut K) -> Result<(), CommandStop<'w>>
    ensures { CarriesOut help_job (S.state shelf.old) (S.state shelf.new) (K.state out.old) (K.state out.new) (ending_of result) }
{
    after_push(push_help(out))
}

/// Writes the line with the program's version.
pub fn version<'w, S: Shelf, K: Sink>(shelf: &mut S, out: &mut K) -> Result<(), CommandStop<'w>>
    ensures { CarriesOut version_job (S.state shelf.old) (S.state shelf.new) (K.state out.old) (K.state out.new) (ending_of result) }
{
    after_push(push_version(out))
}
