// Laws of the text of brains.
ghost use Rattle.brain_read.specs.Laws.{CanonicalTextIsRead, NoTextWantsMemory, OneBrainOrOneFault, TextsMakeBrains};

/// A law: every text has exactly one brain or exactly one fault, and never both.
pub fn one_brain_or_one_fault()
    ensures { OneBrainOrOneFault }
{}

/// A law: the canonical text of a brain whose bounds fit a `u32` is a text of that brain. So it is read as that brain
/// and no other.
pub fn canonical_text_is_read()
    ensures { CanonicalTextIsRead }
{}

/// A law: whatever a text is a text of is a brain: 1 to 10,000 instructions, whose states are below their number, whose
/// markers are below 6 and whose bounds are at least 1 (the task's neurology).
pub fn texts_make_brains()
    ensures { TextsMakeBrains }
{}

/// A law: `OutOfMemory` is never the fault of a text.
pub fn no_text_wants_memory()
    ensures { NoTextWantsMemory }
{}
