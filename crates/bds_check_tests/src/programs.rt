//! The program that a test is run as: what the programs of all tests begin with, and the test's call behind it.
ghost use Rattle.std.specs.Prelude.{◌≡◌, ◌<◌, ◌++◌, [], ◌∷◌, ℕ, List, IfOk, Some, length, map};
ghost use Rattle.std.specs.List.{slice_get};
ghost use Rattle.bds_tree.specs.StmtTree as tree;
ghost use Rattle.bds_tree.specs.StmtTree.{FunctionTree, PartTree};
ghost use Rattle.bds_tree.specs.StmtView.{part_of, script_of, stmt_of};
ghost use Rattle.bds_check.specs.declared.checking.TypedScript.{TypedScript};
ghost use Rattle.bds_check_typing.specs.Typed.{IsTyped};
ghost use Rattle.bds_check_tests.specs.Tests.{IsBaseOf, IsTestOf, base_program, tests_in};
ghost use Rattle.bds_check_tests.specs.Tests as specs;

use crate::calls::call_of;
use crate::listing::test_at;
use crate::parts::kept_parts;
use bds_check::{CheckFault, Typed, check};
use bds_check_laws::typed_scripts_are_checked;
use bds_tree::{Part, Parts, Script, Stmt};
use bds_value::{Listed, NoMemory};
use std::alloc::Global;
use std::mem;

/// What the programs of a script's tests begin with: all functions, and all variables that the top level declares,
/// in their order.
pub fn base_of(typed: Typed) -> Script
    ensures { IsBaseOf typed (script_of result) }
{
    let Script { at, files, parts } = typed.into_script();
    Script {
        at,
        files,
        parts: kept_parts(parts),
    }
}

/// The call of the test of this number.
fn call_at(alloc: Global, parts: &[Part], index: u32) -> Result<Stmt, NoMemory>
    requires { index < length (tests_in (map part_of parts.now)) }
    ensures { IfOk result (λ s. (f : FunctionTree) → slice_get (tests_in (map part_of parts.now)) index ≡ Some f
        → stmt_of s ≡ specs.call_of f) }
{
    match test_at(parts, index) {
        Some(function) => call_of(alloc, function),
        None => unreachable!(),
    }
}

/// Puts the call of the test of this number behind the parts.
fn put_call(alloc: Global, parts: &mut Parts, index: u32) -> Result<(), NoMemory>
    requires { index < length (tests_in (map part_of parts.old)) }
    ensures { IfOk result (λ _. (f : FunctionTree) → slice_get (tests_in (map part_of parts.old)) index ≡ Some f
        → map part_of parts.new ≡ map part_of parts.old ++ tree.a_statement (specs.call_of f) ∷ []) }
{
    let call = call_at(alloc, parts.as_slice(), index)?;
    parts.push(Part::Stmt(call))
}

/// Checks a program that is typed already.
fn check_again(alloc: Global, script: Script) -> Result<Typed, NoMemory>
    requires { IsTyped (script_of script) }
    ensures { IfOk result (λ t. (script_of t.script ≡ script_of script) × (t.settings ≡ []) × (t.args ≡ [])) }
{
    typed_scripts_are_checked();
    match check(alloc, script) {
        Ok(typed) => Ok(typed),
        Err(CheckFault::NoMemory) => Err(NoMemory),
        Err(CheckFault::Broken { rule: _, at: _ }) => unreachable!(),
    }
}

/// Takes a script out of its place, where an empty one is left.
fn taken(alloc: Global, place: &mut Script) -> Script
    ensures { result ≡ place.old }
{
    let empty = Script {
        at: place.at,
        files: Listed::new(alloc),
        parts: Listed::new(alloc),
    };
    mem::replace(place, empty)
}

/// The program of the test of this number, which begins with `base`.
fn program_of(alloc: Global, base: Script, index: u32) -> Result<Typed, NoMemory>
    requires base { (t : TypedScript) × IsBaseOf t (script_of base) }
    requires below { index < length (tests_in (script_of base).parts) }
    ensures { IfOk result (λ test. (t : TypedScript) → IsBaseOf t (script_of base) → IsTestOf t index test) }
{
    let Script {
        at,
        files,
        mut parts,
    } = base;
    match put_call(alloc, &mut parts, index) {
        Ok(()) => check_again(alloc, Script { at, files, parts }),
        Err(NoMemory) => Err(NoMemory),
    }
}

/// The program of the test of this number, counted from 0 in the order of `tests`: what all begin with, and then a
/// call of the test. No word sets anything in it. It is made of `base`, in the place of which nothing is left:
/// `give_back` puts it there again.
pub fn test_of(alloc: Global, base: &mut Script, index: u32) -> Result<Typed, NoMemory>
    requires base { (t : TypedScript) × IsBaseOf t (script_of base.old) }
    requires below { index < length (tests_in (script_of base.old).parts) }
    ensures { IfOk result (λ test. (t : TypedScript) → IsBaseOf t (script_of base.old) → IsTestOf t index test) }
{
    let whole = taken(alloc, base);
    program_of(alloc, whole, index)
}

/// Takes the last part away.
fn without_last(parts: &mut Parts)
    ensures { (ps : List PartTree) (p : PartTree) → map part_of parts.old ≡ ps ++ p ∷ [] → map part_of parts.new ≡ ps }
{
    drop(parts.pop());
}

/// What the program of a test begins with, without its call.
fn without_call(test: Typed) -> Script
    ensures { (t : TypedScript) (n : ℕ) → IsTestOf t n test → script_of result ≡ base_program (script_of t.script) }
{
    let Script {
        at,
        files,
        mut parts,
    } = test.into_script();
    without_last(&mut parts);
    Script { at, files, parts }
}

/// Puts what the program of a test begins with where it was taken from.
pub fn give_back(base: &mut Script, test: Typed)
    ensures { (t : TypedScript) (n : ℕ) → IsTestOf t n test
        → script_of base.new ≡ base_program (script_of t.script) }
{
    *base = without_call(test);
}
