// What a line says, from its tokens.
ghost use Rattle.std.specs.Prelude.{◌≡◌, ℕ, suc, None, OnOk, IfErr};
ghost use Rattle.word_table.specs.Words.{word_place};
ghost use Rattle.brain_read.specs.Forms.{form_words};
ghost use Rattle.ant_asm.specs.Lines.Line.{Begins, Ends, Instructs, Uses};
ghost use Rattle.ant_asm.specs.Lines.{most_parameters};
ghost use Rattle.ant_asm.specs.Inner.Reading as reading;
ghost use Rattle.ant_asm.specs.Standing.{mapped};
ghost use Rattle.ant_asm.specs.Inner.Reading.{all_read, good_token, keyword_words, read_branches, read_by, read_drop, read_flip, read_form, read_keyword, read_label, read_line, read_mark, read_marked, read_name, read_named, read_sense, read_turn, seen, take_all};
ghost use Rattle.ant_asm.specs.Inner.ReadLine.{Reads, ReadsAs, StopsAs, all_before, action_read, keyword_seen, labels_seen, names_seen};
ghost use Rattle.ant_asm.specs.declared.action.Action.TheVariants.{Mark, Unmark, PickUp, Move};

use crate::action::Action;
use crate::names::{label, name, name_before_colon};
use crate::spelling::{Source, SpellingFault};
use brain_read::positions::{bound, condition, marker, side, sight};
use brain_read::{Form, form_at, form_table};
use line_tokens::{Tokens, has_bad_byte};
use std::alloc::Global;
use word_table::{WordTable, word_arms};

/// The first word of a line that isn't an instruction.
#[derive(Clone, Copy)]
pub enum Keyword {
    Block,
    End,
    Use,
}

/// What a line says.
#[derive(Drop)]
pub enum Line<'t> {
    Mark(&'t [u8]),
    Begin {
        name: &'t [u8],
        parameters: Vec<&'t [u8]>,
    },
    End,
    Use {
        name: &'t [u8],
        handed: Vec<Source<'t>>,
    },
    Instruct(Action<Source<'t>>),
}

// What a line says.
#[tactic(auto, unfolding(crate::specs::Inner::Reading::read_line))]
pub(crate) fn read_line<'t>(
    alloc: Global,
    tokens: &mut Tokens<'t>,
) -> Result<Line<'t>, SpellingFault>
    ensures { Reads (read_line tokens.old) result }
{
    match tokens.next() {
        None => Err(SpellingFault::MissingToken),
        Some(token) => line_from(alloc, token, tokens),
    }
}

// What a line that begins with this token says.
fn line_from<'t>(
    alloc: Global,
    token: &'t [u8],
    tokens: &mut Tokens<'t>,
) -> Result<Line<'t>, SpellingFault>
    ensures { Reads (good_token token.now (read_by (word_place form_words token.now) (word_place keyword_words token.now) token.now tokens.old)) result }
{
    if has_bad_byte(token) {
        return Err(SpellingFault::BadByte);
    }
    match form_table().find(token) {
        Some(place) => instruction_line(form_at(place), tokens),
        None => other_line(alloc, token, tokens),
    }
}

// What a line that begins with the word of a form says.
fn instruction_line<'t>(form: Form, tokens: &mut Tokens<'t>) -> Result<Line<'t>, SpellingFault>
    ensures { Reads (read_form form tokens.old) result }
{
    let action = instruction(form, tokens)?;
    Ok(Line::Instruct(action))
}

// What a line that doesn't begin with the word of a form says.
fn other_line<'t>(
    alloc: Global,
    token: &'t [u8],
    tokens: &mut Tokens<'t>,
) -> Result<Line<'t>, SpellingFault>
    ensures { Reads (read_by None (word_place keyword_words token.now) token.now tokens.old) result }
{
    match keyword_table().find(token) {
        Some(place) => keyword_line(alloc, keyword_at(place), tokens),
        None => mark_line(token, tokens),
    }
}

// The first words of the lines that aren't instructions.
#[tactic(auto, unfolding(crate::specs::Inner::Reading::keyword_words))]
fn keyword_table() -> WordTable<3>
    ensures { result ≡ keyword_words }
{
    WordTable::new(["block", "end", "use"])
}

fn keyword_at(place: usize) -> Keyword
    ensures { keyword_seen result ≡ reading.keyword_at place }
{
    word_arms!(place; Keyword::Block, Keyword::End, Keyword::Use)
}

// The instruction of a form, from the tokens after its word.
fn instruction<'t>(form: Form, tokens: &mut Tokens<'t>) -> Result<Action<Source<'t>>, SpellingFault>
    ensures { read_form form tokens.old ≡ action_read result }
{
    match form {
        Form::Sense => sense(tokens),
        Form::Mark => mark(tokens),
        Form::Unmark => unmark(tokens),
        Form::PickUp => pick_up(tokens),
        Form::Drop => drop_food(tokens),
        Form::Turn => turn(tokens),
        Form::Move => step(tokens),
        Form::Flip => flip(tokens),
    }
}

// An instruction, if no token is left.
fn ended<'t>(
    tokens: &mut Tokens<'t>,
    action: Action<Source<'t>>,
) -> Result<Action<Source<'t>>, SpellingFault>
    ensures { reading.ending (Instructs (mapped seen action.entry)) tokens.old ≡ action_read result }
{
    tokens.end()?;
    Ok(action)
}

#[tactic(auto, unfolding(crate::specs::Inner::Reading::read_sense))]
fn sense<'t>(tokens: &mut Tokens<'t>) -> Result<Action<Source<'t>>, SpellingFault>
    ensures { read_sense tokens.old ≡ action_read result }
{
    let sight = sight(tokens)?;
    let met = label(tokens)?;
    let unmet = label(tokens)?;
    let cond = condition(tokens)?;
    let action = Action::Sense {
        sight,
        met,
        unmet,
        cond,
    };
    ended(tokens, action)
}

#[tactic(auto, unfolding(crate::specs::Inner::Reading::read_marked))]
fn mark<'t>(tokens: &mut Tokens<'t>) -> Result<Action<Source<'t>>, SpellingFault>
    ensures { read_marked Mark tokens.old ≡ action_read result }
{
    let mark = marker(tokens)?;
    let on = label(tokens)?;
    ended(tokens, Action::Mark { mark, on })
}

#[tactic(auto, unfolding(crate::specs::Inner::Reading::read_marked))]
fn unmark<'t>(tokens: &mut Tokens<'t>) -> Result<Action<Source<'t>>, SpellingFault>
    ensures { read_marked Unmark tokens.old ≡ action_read result }
{
    let mark = marker(tokens)?;
    let on = label(tokens)?;
    ended(tokens, Action::Unmark { mark, on })
}

#[tactic(auto, unfolding(crate::specs::Inner::Reading::read_branches))]
fn pick_up<'t>(tokens: &mut Tokens<'t>) -> Result<Action<Source<'t>>, SpellingFault>
    ensures { read_branches PickUp tokens.old ≡ action_read result }
{
    let met = label(tokens)?;
    let unmet = label(tokens)?;
    ended(tokens, Action::PickUp { met, unmet })
}

#[tactic(auto, unfolding(crate::specs::Inner::Reading::read_drop))]
fn drop_food<'t>(tokens: &mut Tokens<'t>) -> Result<Action<Source<'t>>, SpellingFault>
    ensures { read_drop tokens.old ≡ action_read result }
{
    let on = label(tokens)?;
    ended(tokens, Action::Drop { on })
}

#[tactic(auto, unfolding(crate::specs::Inner::Reading::read_turn))]
fn turn<'t>(tokens: &mut Tokens<'t>) -> Result<Action<Source<'t>>, SpellingFault>
    ensures { read_turn tokens.old ≡ action_read result }
{
    let side = side(tokens)?;
    let on = label(tokens)?;
    ended(tokens, Action::Turn { side, on })
}

#[tactic(auto, unfolding(crate::specs::Inner::Reading::read_branches))]
fn step<'t>(tokens: &mut Tokens<'t>) -> Result<Action<Source<'t>>, SpellingFault>
    ensures { read_branches Move tokens.old ≡ action_read result }
{
    let met = label(tokens)?;
    let unmet = label(tokens)?;
    ended(tokens, Action::Move { met, unmet })
}

#[tactic(auto, unfolding(crate::specs::Inner::Reading::read_flip))]
fn flip<'t>(tokens: &mut Tokens<'t>) -> Result<Action<Source<'t>>, SpellingFault>
    ensures { read_flip tokens.old ≡ action_read result }
{
    let bound = bound(tokens)?;
    let met = label(tokens)?;
    let unmet = label(tokens)?;
    ended(tokens, Action::Flip { bound, met, unmet })
}

// The line of a keyword, from the tokens after it.
fn keyword_line<'t>(
    alloc: Global,
    keyword: Keyword,
    tokens: &mut Tokens<'t>,
) -> Result<Line<'t>, SpellingFault>
    ensures { Reads (read_keyword (keyword_seen keyword) tokens.old) result }
{
    match keyword {
        Keyword::Block => block_line(alloc, tokens),
        Keyword::End => end_line(tokens),
        Keyword::Use => use_line(alloc, tokens),
    }
}

#[tactic(auto, unfolding(crate::specs::Inner::Reading::read_named))]
fn block_line<'t>(alloc: Global, tokens: &mut Tokens<'t>) -> Result<Line<'t>, SpellingFault>
    ensures { Reads (read_named read_name Begins tokens.old) result }
{
    let name = name(tokens)?;
    let parameters = names_to_end(alloc, tokens)?;
    Ok(Line::Begin { name, parameters })
}

fn end_line<'t>(tokens: &mut Tokens<'t>) -> Result<Line<'t>, SpellingFault>
    ensures { Reads (reading.ending Ends tokens.old) result }
{
    tokens.end()?;
    Ok(Line::End)
}

#[tactic(auto, unfolding(crate::specs::Inner::Reading::read_named))]
fn use_line<'t>(alloc: Global, tokens: &mut Tokens<'t>) -> Result<Line<'t>, SpellingFault>
    ensures { Reads (read_named read_label Uses tokens.old) result }
{
    let name = name(tokens)?;
    let handed = labels_to_end(alloc, tokens)?;
    Ok(Line::Use { name, handed })
}

// The names that are left in a line, at most 8.
fn names_to_end<'t>(alloc: Global, tokens: &mut Tokens<'t>) -> Result<Vec<&'t [u8]>, SpellingFault>
    ensures { ReadsAs (λ names. names_seen names.items) (all_read read_name most_parameters tokens.old) result }
{
    let mut names = Vec::new(alloc);
    for _k in 0..8usize {
        add_name(tokens, &mut names)?;
    }
    tokens.end()?;
    Ok(names)
}

// The next name of a line, if a token is left.
fn add_name<'t>(tokens: &mut Tokens<'t>, names: &mut Vec<&'t [u8]>) -> Result<(), SpellingFault>
    ensures on { (n : ℕ) → OnOk result (all_before (names_seen names.new.items) (take_all read_name n tokens.new) ≡ all_before (names_seen names.old.items) (take_all read_name (suc n) tokens.old)) }
    ensures fault { (n : ℕ) → IfErr result (λ fault. StopsAs (all_before (names_seen names.old.items) (take_all read_name (suc n) tokens.old)) fault) }
{
    if !tokens.has_next() {
        return Ok(());
    }
    let name = name(tokens)?;
    names.push(name)?;
    Ok(())
}

// The labels that are left in a line, at most 8.
fn labels_to_end<'t>(
    alloc: Global,
    tokens: &mut Tokens<'t>,
) -> Result<Vec<Source<'t>>, SpellingFault>
    ensures { ReadsAs (λ labels. labels_seen labels.items) (all_read read_label most_parameters tokens.old) result }
{
    let mut labels = Vec::new(alloc);
    for _k in 0..8usize {
        add_label(tokens, &mut labels)?;
    }
    tokens.end()?;
    Ok(labels)
}

// The next label of a line, if a token is left.
fn add_label<'t>(tokens: &mut Tokens<'t>, labels: &mut Vec<Source<'t>>) -> Result<(), SpellingFault>
    ensures on { (n : ℕ) → OnOk result (all_before (labels_seen labels.new.items) (take_all read_label n tokens.new) ≡ all_before (labels_seen labels.old.items) (take_all read_label (suc n) tokens.old)) }
    ensures fault { (n : ℕ) → IfErr result (λ fault. StopsAs (all_before (labels_seen labels.old.items) (take_all read_label (suc n) tokens.old)) fault) }
{
    if !tokens.has_next() {
        return Ok(());
    }
    let label = label(tokens)?;
    labels.push(label)?;
    Ok(())
}

// The line whose first token isn't the first word of a form.
fn mark_line<'t>(token: &'t [u8], tokens: &mut Tokens<'t>) -> Result<Line<'t>, SpellingFault>
    ensures { Reads (read_mark token.now tokens.old) result }
{
    if tokens.has_next() {
        return Err(SpellingFault::UnknownWord);
    }
    match name_before_colon(token) {
        Some(name) => Ok(Line::Mark(name)),
        None => Err(SpellingFault::UnknownWord),
    }
}
