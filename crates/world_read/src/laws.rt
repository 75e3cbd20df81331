// Laws on the definitions of world texts. Each is proved by a function that does nothing.
ghost use Rattle.world_read.specs.Laws.{EveryTextHasOneVerdict, CanonicalTextIsReadBack, WrittenWorldsAreReadBack};

/// A law: every text is that of exactly one world or has exactly one fault, and never both.
pub fn every_text_has_one_verdict()
    ensures { EveryTextHasOneVerdict }
{}

/// A law: the canonical text of the kinds of a world is a text of that world.
pub fn canonical_text_is_read_back()
    ensures { CanonicalTextIsReadBack }
{}

/// A law: the text that is written for an opening world is a text of exactly that world.
pub fn written_worlds_are_read_back()
    ensures { WrittenWorldsAreReadBack }
{}
