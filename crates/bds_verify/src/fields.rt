//! Verified units may be in files.
ghost use Rattle.bds_code.specs.declared.unit.Unit.{Unit as CodeUnit};
ghost use Rattle.bds_code.specs.UnitFields.{IsFieldUnit};
ghost use Rattle.bds_verify.specs.Verified.{VerifiedUnit};

/// A verified unit is one that a file may hold: a law, which does nothing.
pub fn verified_units_may_be_written()
    ensures { (u : CodeUnit) → VerifiedUnit u → IsFieldUnit u }
{}
