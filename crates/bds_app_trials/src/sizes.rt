//! Whether the unit of a script or of one of its tests is too large, asked before the first test is run.
ghost use Rattle.std.specs.Prelude.{◌≡◌, ◌<◌, [], IfOk, Some, length};
ghost use Rattle.std.specs.List.{list_any, slice_get};
ghost use Rattle.bds_tree.specs.StmtTree.{FunctionTree};
ghost use Rattle.bds_tree.specs.StmtView.{script_of};
ghost use Rattle.bds_check.specs.declared.checking.TypedScript.{TypedScript};
ghost use Rattle.bds_check_tests.specs.Tests.{IsBaseOf, test_program, tests_in};
ghost use Rattle.bds_app_trials.specs.Testing.{is_too_big as is_too_big_of, tests_of};

use bds_check::Typed;
use bds_check_tests::{give_back, test_of};
use bds_gen_size::program_size;
use bds_tree::Script;
use bds_value::{MAX_CODE, NoMemory};
use std::alloc::Global;

/// Whether the unit of a script without set values is too large.
pub fn is_too_big(alloc: Global, typed: &Typed) -> Result<bool, NoMemory>
    requires { (typed.now.settings ≡ []) × (typed.now.args ≡ []) }
    ensures { IfOk result (λ big. big ≡ is_too_big_of (script_of typed.now.script)) }
{
    let size = program_size(alloc, typed)?;
    Ok(size > MAX_CODE)
}

/// Whether the unit of the test of this number is too large, whose program begins with `base`.
fn is_test_too_big(alloc: Global, base: &mut Script, index: u32) -> Result<bool, NoMemory>
    requires base { (t : TypedScript) × IsBaseOf t (script_of base.old) }
    requires below { index < length (tests_in (script_of base.old).parts) }
    ensures { IfOk result (λ big. (t : TypedScript) → IsBaseOf t (script_of base.old)
        → IsBaseOf t (script_of base.new) × ((f : FunctionTree) → slice_get (tests_of t) index ≡ Some f
        → big ≡ is_too_big_of (test_program (script_of t.script) f))) }
{
    let test = test_of(alloc, base, index)?;
    let big = is_too_big(alloc, &test);
    give_back(base, test);
    big
}

/// Whether the unit of one of the tests, so many, is too large, whose programs begin with `base`.
pub fn is_any_test_too_big(alloc: Global, base: &mut Script, count: u32) -> Result<bool, NoMemory>
    requires base { (t : TypedScript) × IsBaseOf t (script_of base.old) }
    requires count { count ≡ length (tests_in (script_of base.old).parts) }
    ensures { IfOk result (λ big. (t : TypedScript) → IsBaseOf t (script_of base.old)
        → IsBaseOf t (script_of base.new)
        × (big ≡ list_any (λ f. is_too_big_of (test_program (script_of t.script) f)) (tests_of t))) }
{
    for index in 0..count {
        if is_test_too_big(alloc, base, index)? {
            return Ok(true);
        }
    }
    Ok(false)
}
