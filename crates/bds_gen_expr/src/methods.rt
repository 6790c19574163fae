//! Calls of methods, and files as lists.
ghost use Rattle.std.specs.Prelude.{◌≡◌, OnOk};
ghost use Rattle.bds_gen_expr.specs.ExprCode.{file_code, method_code, listing};
ghost use Rattle.bds_gen_expr.specs.Grown.{Grown};
ghost use Rattle.bds_gen_expr.specs.Marks.{written};

use crate::writing::act;
use bds_code::{Function, Instr};
use bds_value::method_numbers::LINES;
use bds_value::{At, Method, NoMemory, Ty, same_ty};

/// A call on a file, by its place in the table of methods.
#[tactic(auto, using(crate::proofs::Growing::grown_on))]
fn write_file_call(function: &mut Function, at: At, call: u8) -> Result<(), NoMemory>
    ensures code { OnOk result (function.new ≡ written function.old (file_code at call)) }
    ensures kept { Grown function.old function.new }
{
    match call {
        0 => act(function, at, Instr::FileRead),
        1 => {
            act(function, at, Instr::FileRead)?;
            act(function, at, Instr::Method(LINES))
        }
        2 => act(function, at, Instr::FileWrite),
        3 => act(function, at, Instr::FileRemove),
        asked => act(function, at, Instr::FileStamp(asked - 4)),
    }
}

/// A call of a method behind its receiver and its arguments; method 0 where there is none.
pub fn write_call(function: &mut Function, at: At, method: Option<Method>) -> Result<(), NoMemory>
    ensures code { OnOk result (function.new ≡ written function.old (method_code at method)) }
    ensures kept { Grown function.old function.new }
{
    match method {
        Some(Method::Plain(number)) => act(function, at, Instr::Method(number)),
        Some(Method::File(call)) => write_file_call(function, at, call),
        Some(Method::Change(number)) => act(function, at, Instr::Method(number)),
        None => act(function, at, Instr::Method(0)),
    }
}

/// A file as a list of one; a list of files is one.
pub fn write_listing(function: &mut Function, at: At, ty: &Ty) -> Result<(), NoMemory>
    ensures code { OnOk result (function.new ≡ written function.old (listing at ty.now)) }
    ensures kept { Grown function.old function.new }
{
    if same_ty(ty, &Ty::Text) {
        act(function, at, Instr::MakeList(Ty::Text, 1))
    } else {
        Ok(())
    }
}
