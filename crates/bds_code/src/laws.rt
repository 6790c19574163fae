//! Laws on units, their fields and the rows of instructions, each the clause of a function.
ghost use Rattle.std.specs.Prelude.{◌≡◌, ◌↔◌, ℕ, List, Err, Some};
ghost use Rattle.bds_value.specs.declared.value.Ty.{Ty};
ghost use Rattle.bds_value.specs.Fields.{IsField};
ghost use Rattle.bds_code.specs.declared.effects.EffectFault.{EffectFault};
ghost use Rattle.bds_code.specs.declared.instr.Instr.{Instr};
ghost use Rattle.bds_code.specs.declared.unit.Function.{Function};
ghost use Rattle.bds_code.specs.declared.unit.Unit.{Unit as CodeUnit};
ghost use Rattle.bds_code.specs.Missing.{missing};
ghost use Rattle.bds_code.specs.Row.{row};
ghost use Rattle.bds_code.specs.UnitFields.{IsFieldInstr, NumbersFit, IsFieldUnit, UnitFits};
ghost use Rattle.bds_code.specs.UnitReading.{instr_at, unit_at};
ghost use Rattle.bds_code.specs.UnitSpelling.{instr_field, unit_field};

/// What is spelled is read back, and what is read is spelled so: a law, which does nothing.
pub fn units_are_read_back()
    ensures instr { IsField instr_at instr_field (λ i. IsFieldInstr i × NumbersFit i) }
    ensures unit { IsField unit_at unit_field (λ u. IsFieldUnit u × UnitFits u) }
{}

/// A row names a number exactly where the first thing that the instruction names and that isn't
/// there has it: a law, which does nothing.
pub fn rows_name_what_is_missing()
    ensures { (u : CodeUnit) (f : Function) (i : Instr) (shape : List Ty) (n : ℕ)
        → (row u f i shape ≡ Err (EffectFault.Number n)) ↔ (missing u f i ≡ Some n) }
{}
