//! The rows that go on with the next place.
ghost use Rattle.std.specs.Prelude.{IsSome};
ghost use Rattle.bds_code_frames.specs.Stack.{stack};
ghost use Rattle.bds_machine_values.specs.Faults.{Leaves};
ghost use Rattle.bds_machine_values.specs.Worked.{worked, changed};

use crate::faults::RowFault;
use crate::frequent::{difference, load, load_global, opposite, store, store_global, sum};
use crate::literals::{list_made, map_made};
use crate::methods::method_given;
use crate::values::{
    defaulted, dropped, entry_given, gives, item_given, negated, operated, shown, shown_piece,
    text_given,
};
use crate::variables::update;
use bds_code::Instr;
use bds_code_frames::Frames;
use bds_value::{Items, Op, Value};
use std::alloc::Global;

/// A row that works on the newest call alone.
pub fn work(
    alloc: Global,
    instr: &Instr,
    globals: &Items,
    frames: &mut Frames,
) -> Result<(), RowFault>
    requires { IsSome (worked instr.now globals.now (stack frames.old)) }
    ensures { Leaves (worked instr.now globals.now (stack frames.old)) (stack frames.new) result }
{
    match instr {
        Instr::PushBool(b) => gives(alloc, Value::Bool(*b), frames),
        Instr::PushInt(n) => gives(alloc, Value::Int(*n), frames),
        Instr::PushText(text) => text_given(alloc, text, frames),
        Instr::PushDefault(ty) => defaulted(alloc, ty, frames),
        Instr::Load(slot) => Ok(load(alloc, *slot, frames)?),
        Instr::Store(slot) => {
            store(*slot, frames);
            Ok(())
        }
        Instr::LoadGlobal(slot) => Ok(load_global(alloc, *slot, globals, frames)?),
        Instr::Drop => dropped(frames),
        Instr::Add => Ok(sum(alloc, frames)?),
        Instr::Sub => Ok(difference(alloc, frames)?),
        Instr::Mul => operated(alloc, Op::Mul, frames),
        Instr::Div => operated(alloc, Op::Div, frames),
        Instr::Rem => operated(alloc, Op::Rem, frames),
        Instr::Neg => negated(alloc, frames),
        Instr::Not => Ok(opposite(alloc, frames)?),
        Instr::Show => shown(alloc, frames),
        Instr::Blank => shown_piece(alloc, frames),
        Instr::Concat => operated(alloc, Op::Concat, frames),
        Instr::ListAdd => operated(alloc, Op::ListAdd, frames),
        Instr::ListCat => operated(alloc, Op::ListCat, frames),
        Instr::Equal => operated(alloc, Op::Equal, frames),
        Instr::NotEqual => operated(alloc, Op::NotEqual, frames),
        Instr::Less => operated(alloc, Op::Less, frames),
        Instr::LessEqual => operated(alloc, Op::LessEqual, frames),
        Instr::Greater => operated(alloc, Op::Greater, frames),
        Instr::GreaterEqual => operated(alloc, Op::GreaterEqual, frames),
        Instr::MakeList(ty, count) => list_made(alloc, ty, *count, frames),
        Instr::MakeMap(ty, count) => map_made(alloc, ty, *count, frames),
        Instr::Item => item_given(alloc, frames),
        Instr::Key => entry_given(alloc, frames),
        Instr::Method(method) => method_given(alloc, *method, frames),
        _ => unreachable!(),
    }
}

/// A row that goes on with the next place.
pub fn change(
    alloc: Global,
    instr: &Instr,
    globals: &mut Items,
    frames: &mut Frames,
) -> Result<(), RowFault>
    requires { IsSome (changed instr.now globals.old (stack frames.old)) }
    ensures { Leaves (changed instr.now globals.old (stack frames.old)) (globals.new, stack frames.new) result }
{
    match instr {
        Instr::StoreGlobal(slot) => {
            store_global(*slot, globals, frames);
            Ok(())
        }
        Instr::Update(is_global, slot, kinds, what) => {
            update(alloc, *is_global, *slot, kinds, *what, globals, frames)
        }
        _ => work(alloc, instr, globals, frames),
    }
}
