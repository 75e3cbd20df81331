// Texts of saves read.
ghost use Rattle.std.specs.Prelude.{◌≤◌, length, IfErr, IfOk};
ghost use Rattle.ant_base.specs.Answers.{AnswersFault, AnswersValue, IsFaultOr};
ghost use Rattle.ant_base.specs.Shelf.{longest};
ghost use Rattle.match_save.specs.declared.fault.SaveFault.{SaveFault};
ghost use Rattle.match_save.specs.declared.fault.SaveFault.TheVariants.{OutOfMemory};
ghost use Rattle.match_save.specs.Faulty.{IsSaveFault};
ghost use Rattle.match_save.specs.Saved.{IsSaveText, SavedValue};
ghost use Rattle.match_save.specs.Inner.Judged.{ReadsSave};

use crate::draft::read_draft;
use crate::fault::SaveFault;
use crate::judge::judge;
use crate::saved::Saved;
use std::alloc::Global;

/// The save of a text of at most 4,194,304 bytes, or the text's fault (this project's own): the number of the first
/// line that isn't in its form, counted from 1, or that all lines are in their form but describe no state of a game.
///
/// Every text is that of one save or has one fault. `OutOfMemory` may be returned for any text; every other result
/// follows from the text alone.
pub fn read_saved(alloc: Global, text: &[u8]) -> Result<Saved, SaveFault>
    requires { length text.now ≤ longest }
    ensures saved { IfOk result (λ saved. IsSaveText text.now saved) }
    ensures fault { IfErr result (IsFaultOr OutOfMemory (IsSaveFault text.now)) }
    ensures every_saved { (saved : SavedValue) → IsSaveText text.now saved → AnswersValue OutOfMemory result saved }
    ensures every_fault { (fault : SaveFault) → IsSaveFault text.now fault → AnswersFault OutOfMemory result fault }
{
    read_text(alloc, text)
}

// What a text is read as.
fn read_text(alloc: Global, text: &[u8]) -> Result<Saved, SaveFault>
    requires { length text.now ≤ longest }
    ensures { ReadsSave text.now result }
{
    let draft = read_draft(alloc, text)?;
    judge(alloc, &draft)
}
