//! The judge of functions and units.
ghost use Rattle.std.specs.Prelude.{◌≡◌, [], ◌<◌, ◌+◌, length, slice_get, Some, Ok, Err, IfOk, ◌^◌, ◌≤◌, true};
ghost use Rattle.bds_verify.specs.Marked.{AreMarks, AreAllMarks};
ghost use Rattle.bds_verify.specs.Verified.{IsVerified, VerifiedUnit};
ghost use Rattle.bds_verify.specs.Whole.{is_whole, is_whole_unit};
ghost use Rattle.bds_verify.specs.declared.units.VerifyFault.{VerifyFault};
ghost use Rattle.bds_verify.specs.Pass.{Verifies, VerifiesFunctions, VerifiesUnit, FirstFault, at_function, OrMemory};

use crate::marks::AllMarks;
use crate::places::{CodeFault, Kind, check_code};
use crate::verified::Verified;
use crate::whole::{is_whole, is_whole_unit};
use bds_code::{Function, Labels, Unit};
use bds_value::{Listed, NoMemory};
use std::alloc::Global;

/// Why a unit isn't accepted: the first function and place at which something is wrong, and what.
#[derive(Debug, Drop)]
pub enum VerifyFault {
    Bad { function: u32, at: u32, kind: Kind },
    NoMemory,
}

fn check_function(
    alloc: Global,
    unit: &Unit,
    function: &Function,
    marks: &mut Labels,
) -> Result<(), CodeFault>
    requires { AreMarks unit.now function.now marks.old }
    ensures fault { Verifies unit.now function.now result }
    ensures marks { AreMarks unit.now function.now marks.new }
{
    if is_whole(unit, function) {
        check_code(alloc, unit, function, marks)
    } else {
        Err(CodeFault::Bad(0, Kind::Shape))
    }
}

fn at_function(function: u32, fault: CodeFault) -> VerifyFault
    ensures { result ≡ at_function function fault }
{
    match fault {
        CodeFault::Bad(at, kind) => VerifyFault::Bad { function, at, kind },
        CodeFault::NoMemory => VerifyFault::NoMemory,
    }
}

fn check_functions(alloc: Global, unit: &Unit, all: &mut AllMarks) -> Result<(), VerifyFault>
    requires few { length unit.now.functions < 2 ^ 32 }
    requires none { all.old ≡ [] }
    ensures fault { VerifiesFunctions unit.now result }
    ensures marks { AreAllMarks unit.now all.new }
{
    let mut number = 0u32;
    for function in unit.functions.as_slice() {
        let mut marks = Listed::new(alloc);
        match check_function(alloc, unit, function, &mut marks) {
            Ok(()) => number += 1,
            Err(fault) => return Err(at_function(number, fault)),
        }
        match all.push(marks) {
            Ok(()) => {}
            Err(NoMemory) => return Err(VerifyFault::NoMemory),
        }
    }
    Ok(())
}

fn check_unit(alloc: Global, unit: &Unit, all: &mut AllMarks) -> Result<(), VerifyFault>
    requires { all.old ≡ [] }
    ensures fault { VerifiesUnit unit.now result }
    ensures marks { AreAllMarks unit.now all.new }
{
    if is_whole_unit(unit) {
        check_functions(alloc, unit, all)
    } else {
        let kind = Kind::Shape;
        Err(VerifyFault::Bad {
            function: 0,
            at: 0,
            kind,
        })
    }
}

/// Accepts exactly the verified units, and names the first fault of another.
pub fn verify(alloc: Global, unit: Unit) -> Result<Verified, VerifyFault>
    ensures same { IfOk result (λ v. v ≡ unit) }
    ensures fault { (e : VerifyFault) → result ≡ Err e → VerifiesUnit unit (Err e) }
    ensures exact { VerifiedUnit unit → OrMemory result }
{
    let mut marks = Listed::new(alloc);
    match check_unit(alloc, &unit, &mut marks) {
        Ok(()) => Ok(Verified::of(unit, marks)),
        Err(fault) => Err(fault),
    }
}
