//! The instruction behind which a thread stands that awaits an answer.
ghost use Rattle.std.specs.Prelude.{◌≡◌, ◌↔◌, Option, None, slice_get, IsSome, Some};
ghost use Rattle.bds_value.specs.declared.value.Ty.{Ty};
ghost use Rattle.bds_value.specs.declared.value.Ty.TheVariants as Ty;
ghost use Rattle.bds_value.specs.declared.value.Value.{Value};
ghost use Rattle.bds_machine.specs.Answers.{AwaitsAnswer, IsAnswer};

use crate::calls::function_at;
use crate::table::instr_at;
use bds_code::{Function, Instr, Thread};
use bds_value::At;
use bds_verify::Verified;

/// The instruction that a thread has left, whose answer it awaits.
pub fn instr_behind<'a>(unit: &'a Verified, thread: &Thread) -> &'a Instr
    requires { (type : Ty) × AwaitsAnswer unit.now thread.now type }
    ensures { (type : Ty) → (awaits : AwaitsAnswer unit.now thread.now type) → awaits.instruction ≡ result.now }
{
    let (number, place) = thread.frames.place();
    instr_at(function_at(unit.unit(), number), place - 1)
}

fn line_at(function: &Function, at: u32) -> At
    requires { IsSome (slice_get function.now.lines at) }
    ensures { slice_get function.now.lines at ≡ Some result }
{
    match function.lines.as_slice().get(at as usize) {
        Some(line) => *line,
        None => unreachable!(),
    }
}

/// The place in the text of the instruction that a thread has left.
pub fn line_behind(unit: &Verified, thread: &Thread) -> At
    requires { (type : Ty) × AwaitsAnswer unit.now thread.now type }
    ensures { (type : Ty) → (awaits : AwaitsAnswer unit.now thread.now type) → slice_get awaits.f.lines awaits.at ≡ Some result }
{
    let (number, place) = thread.frames.place();
    line_at(function_at(unit.unit(), number), place - 1)
}

/// The type of an answer fixes how many values it gives: a law, which does nothing.
pub fn types_count_answers()
    ensures { (value : Option Value) → (type : Ty) → IsAnswer value type → (value ≡ None) ↔ (type ≡ Ty.Void) }
{}
