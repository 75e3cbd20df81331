// Laws of assembled programs.
ghost use Rattle.ant_asm.specs.Answers.{OneBrain};
ghost use Rattle.ant_asm.specs.Match.{PlaysLabelled, ScoresLabelled};
ghost use Rattle.ant_asm.specs.StateLines.{LineForEachState};
ghost use Rattle.ant_asm.specs.Text.{OneProgramOrOneFault};

/// A law: a text has one program or one fault, and never both.
pub fn one_program_or_one_fault()
    ensures { OneProgramOrOneFault }
{}

/// A law: the program of a text is assembled to one brain, with one list of places.
#[tactic(auto, using(crate::proofs::HasAssembled::one_brain))]
pub fn one_brain()
    ensures { OneBrain }
{}

/// A law: the game with an assembled brain is the labelled game of its program, with each address replaced by the
/// number of its place. It is at the same place of the stream. This holds for any opening world, other brain, numbers
/// of the rules, seed, side and number of rounds (the task's kinetics and number generation).
#[tactic(auto, using(crate::proofs::LabelGames::game_labelled))]
pub fn plays_labelled()
    ensures { PlaysLabelled }
{}

/// A law: so the scores of the two games are equal after each round (the task's game play).
#[tactic(auto, using(crate::proofs::Scores::scores_labelled))]
pub fn scores_labelled()
    ensures { ScoresLabelled }
{}

/// A law: for each state of the brain to which a text is assembled there is one line, in order from state 0. The text's
/// line with that number has the state's instruction. The states in the instruction are those to which the line's
/// labels lead in its body. Each use that is listed is a line of the text. There is one use for each place of the
/// state's address except the last.
#[tactic(auto, using(crate::proofs::LineInstructions::line_for_each))]
pub fn line_for_each_state()
    ensures { LineForEachState }
{}
