//! The numbers of units have the bits of their fields.
ghost use Rattle.std.specs.Prelude.{ℕ, List, ◌<◌, ◌^◌, FitsSigned};
ghost use Rattle.std.specs.Int.{w64};
ghost use Rattle.std.specs.List.{All};
ghost use Rattle.bds_value.specs.declared.value.Ty.{Ty};
ghost use Rattle.bds_code.specs.UnitFields.{NumbersFit, LineFits, FunctionFits, UnitFits};

use crate::numbers::number_fits;
use bds_code::{Function, Instr, Shape, Unit};
use bds_value::At;

fn signed_fits(n: i64)
    ensures { FitsSigned w64 n }
{}

fn slot_fits(n: u16)
    ensures { n < 2 ^ 16 }
{}

fn byte_fits(n: u8)
    ensures { n < 2 ^ 8 }
{}

fn instr_fits(instr: &Instr)
    ensures { NumbersFit instr.now }
{
    match instr {
        Instr::PushInt(n) => signed_fits(*n),
        Instr::Load(i) | Instr::Store(i) | Instr::LoadGlobal(i) | Instr::StoreGlobal(i) => {
            slot_fits(*i)
        }
        Instr::MakeList(_, n) | Instr::MakeMap(_, n) => number_fits(*n),
        Instr::Update(_, slot, _, what) => {
            slot_fits(*slot);
            byte_fits(*what);
        }
        Instr::Jump(n) | Instr::JumpUnless(n) | Instr::Call(n) | Instr::Spawn(n) => {
            number_fits(*n)
        }
        Instr::Method(n) | Instr::FileStamp(n) => byte_fits(*n),
        _ => {}
    }
}

fn code_fits(code: &[Instr])
    ensures { All NumbersFit code.now }
{
    for instr in code {
        instr_fits(instr);
    }
}

fn labels_fit(labels: &[(u32, Shape)])
    ensures { All (λ (l : ℕ × List Ty). l.0 < 2 ^ 32) labels.now }
{
    for label in labels {
        number_fits(label.0);
    }
}

fn line_fits(at: &At)
    ensures { LineFits at.now }
{
    number_fits(at.file);
    number_fits(at.line);
}

fn lines_fit(lines: &[At])
    ensures { All LineFits lines.now }
{
    for i in 0..lines.len() {
        line_fits(&lines[i]);
    }
}

fn function_fits(function: &Function)
    ensures { FunctionFits function.now }
{
    code_fits(function.code.as_slice());
    labels_fit(function.labels.as_slice());
    lines_fit(function.lines.as_slice());
}

fn functions_fit(functions: &[Function])
    ensures { All FunctionFits functions.now }
{
    for function in functions {
        function_fits(function);
    }
}

/// Each number in a unit has the bits of its field: a law, which looks through the unit.
pub fn unit_fits(unit: &Unit)
    ensures { UnitFits unit.now }
{
    functions_fit(unit.functions.as_slice());
}
