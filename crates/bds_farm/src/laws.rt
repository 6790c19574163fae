//! The law of the ends that a farm gives.
ghost use Rattle.std.specs.Prelude.{ℕ, List};
ghost use Rattle.bds_farm.specs.Ends.{EndsAreLearnt};

/// Each end that is given has its line behind the last submission of its task, and no other end of that was given:
/// a law, which does nothing.
pub fn ends_are_learnt()
    ensures { (submit poll : List ℕ) → EndsAreLearnt submit poll }
{}
