//! What is shown of the unit of a script.

ghost use Rattle.bds_gen_stmt.specs.Laws.{UnitsAreSmall, UnitsAreVerified, UnitsHaveTheirSize};

/// The unit of a script has as many instructions as are counted before any is made.
pub fn units_have_their_size()
    ensures { UnitsHaveTheirSize }
{}

/// The unit of a fully typed script has at most 64 instructions, 32 for each node and each piece of a text,
/// one for each local in force at each `par` block, and one for each item that words give.
pub fn units_are_small()
    ensures { UnitsAreSmall }
{}

/// The unit of a typed script, with what words set in it, is verified where it isn't too large.
pub fn units_are_verified()
    ensures { UnitsAreVerified }
{}
