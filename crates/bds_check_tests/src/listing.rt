//! Which functions of a script are tests.
ghost use Rattle.std.specs.Prelude.{◌≡◌, ◌++◌, [], ◌∷◌, IfOk, OnOk, map, option_map, option_to_list};
ghost use Rattle.std.specs.List.{slice_get};
ghost use Rattle.std.specs.Option.{option_copied};
ghost use Rattle.bds_tree.specs.StmtView.{function_of, part_of, script_of};
ghost use Rattle.bds_check_tests.specs.Tests as specs;

use bds_check::Typed;
use bds_tree::{Function, Part};
use bds_value::{NoMemory, Texts, copy_text};
use std::alloc::Global;

/// Its name begins with `test`, and it has no parameters.
fn is_test(function: &Function) -> bool
    ensures { result ≡ specs.is_test (function_of function.now) }
{
    function.name.as_slice().starts_with(b"test") && function.parameters.as_slice().is_empty()
}

/// The test that a part is.
fn test_in(part: &Part) -> Option<&Function>
    ensures { specs.tests_in (part_of part.now ∷ []) ≡ option_to_list (option_map function_of (option_copied result)) }
{
    match part {
        Part::Function(function) => if is_test(function) {
            Some(function)
        } else {
            None
        },
        Part::Include(_) => None,
        Part::Stmt(_) => None,
    }
}

/// Puts the name of the test that a part is behind the others.
fn push_name(alloc: Global, names: &mut Texts, part: &Part) -> Result<(), NoMemory>
    ensures { OnOk result (names.new ≡ names.old ++ map (λ f. f.name) (specs.tests_in (part_of part.now ∷ []))) }
{
    match test_in(part) {
        Some(function) => names.push(copy_text(alloc, &function.name)?),
        None => Ok(()),
    }
}

/// The names of the tests, in the order of the text: functions whose names begin with `test` and that have no
/// parameters, those of included files among them.
pub fn tests(alloc: Global, typed: &Typed) -> Result<Texts, NoMemory>
    ensures { IfOk result (λ names. names ≡ specs.test_names (script_of typed.now.script)) }
{
    names_in(alloc, typed.script().parts.as_slice())
}

/// The names of the tests among the parts.
fn names_in(alloc: Global, parts: &[Part]) -> Result<Texts, NoMemory>
    ensures { IfOk result (λ names. names ≡ map (λ f. f.name) (specs.tests_in (map part_of parts.now))) }
{
    let mut names = Texts::new(alloc);
    for part in parts {
        push_name(alloc, &mut names, part)?;
    }
    Ok(names)
}

/// The test of this number among the parts, counted from 0.
pub fn test_at(parts: &[Part], index: u32) -> Option<&Function>
    ensures { option_map function_of (option_copied result) ≡ slice_get (specs.tests_in (map part_of parts.now)) index }
{
    let mut left = index;
    for part in parts {
        if let Some(function) = test_in(part) {
            if left == 0 {
                return Some(function);
            }
            left -= 1;
        }
    }
    None
}
