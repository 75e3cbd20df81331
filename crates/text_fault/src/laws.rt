// Laws of texts that are opened.
ghost use Rattle.text_fault.specs.Verdicts.{EveryTextHasOneVerdict};

/// A law: every text is a world's, or has one fault as a world's, and never both. The same holds for brains, for
/// labelled programs, and for saves with at most a given number of rounds done. The call does nothing: its clause is
/// the law.
#[tactic(auto, using(crate::proofs::Verdicts::every_text_has_one_verdict))]
pub fn every_text_has_one_verdict()
    ensures { EveryTextHasOneVerdict }
{}
