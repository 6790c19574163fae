//! What names stand for in code: slots, globals and functions by their numbers.
ghost use Rattle.std.specs.Prelude.{◌≡◌};
ghost use Rattle.std.specs.Option.{option_copied};
ghost use Rattle.bds_gen_expr.specs.Scope.{types_in, load, function_number};

use crate::callees::Callees;
use crate::globals::Globals;
use crate::locals::Locals;
use bds_check_names::Variable;
use bds_code::Instr;
use bds_value::{ByteText, Ty};

/// A variable, and its number: that of its slot in the function, or of the global.
#[derive(Drop)]
pub struct Numbered {
    pub variable: Variable,
    pub number: u16,
}

/// A function's name, and its number.
#[derive(Drop)]
pub struct Callee {
    pub name: ByteText,
    pub number: u32,
}

/// What names stand for. Of locals the innermost stands last and counts; of globals and functions of
/// one name the first counts.
#[derive(Drop)]
pub struct Scope {
    pub locals: Locals,
    pub globals: Globals,
    pub functions: Callees,
}

/// The type of the variable that a name stands for.
pub fn type_in<'a>(scope: &'a Scope, name: &ByteText) -> Option<&'a Ty>
    ensures { option_copied result ≡ types_in scope.now name.now }
{
    match scope.locals.type_of(name) {
        Some(local) => Some(local),
        None => scope.globals.type_of(name),
    }
}

/// What pushes the variable that a name stands for; a name that isn't in force stands for global 0.
pub fn load(scope: &Scope, name: &ByteText) -> Instr
    ensures { result ≡ load scope.now name.now }
{
    match scope.locals.slot_of(name) {
        Some(slot) => Instr::Load(slot),
        None => match scope.globals.number_of(name) {
            Some(global) => Instr::LoadGlobal(global),
            None => Instr::LoadGlobal(0),
        },
    }
}

/// The number of the function of a name; a name that no function has stands for function 0.
pub fn function_number(scope: &Scope, name: &ByteText) -> u32
    ensures { result ≡ function_number scope.now name.now }
{
    match scope.functions.number_of(name) {
        Some(number) => number,
        None => 0,
    }
}
