//! The values that words give globals, found by name without a search.
ghost use Rattle.std.specs.Prelude.{◌≡◌, IfOk};
ghost use Rattle.std.specs.Option.{option_copied, option_map};
ghost use Rattle.bds_tree.specs.StmtView.{line_of};
ghost use Rattle.bds_check_typing.specs.GivenValues.{set_by};
ghost use Rattle.bds_check_size.specs.ScriptSize.{set_value, set_for, value_size};
ghost use Rattle.bds_gen_size.specs.Capped.{capped};
ghost use Rattle.bds_gen_size.specs.GivenNames.{names_given, given_at};

use bds_check::Given;
use bds_check_names::{Locals, variable};
use bds_tree::Line;
use bds_value::{ByteText, NoMemory, Ty, Value};
use std::alloc::Global;

/// The names that are set, in the order of the words.
pub fn names_given(alloc: Global, settings: &[Given]) -> Result<Locals, NoMemory>
    ensures { IfOk result (λ names. names ≡ names_given settings.now) }
{
    let mut names = Locals::new(alloc);
    for given in settings {
        let name = variable(alloc, &given.name, &Ty::Void)?;
        names.push(alloc, name)?;
    }
    Ok(names)
}

fn value_at(settings: &[Given], place: usize) -> Option<&Value>
    ensures { option_copied result ≡ option_map (λ g. g.value) (given_at settings.now place) }
{
    if place == 0 {
        return None;
    }
    match settings.get(place - 1) {
        Some(given) => Some(&given.value),
        None => None,
    }
}

/// The value that is set for a name, where these are the names that are set: the last one.
pub fn value_of<'a>(settings: &'a [Given], names: &Locals, name: &ByteText) -> Option<&'a Value>
    requires { names.now ≡ names_given settings.now }
    ensures { option_copied result ≡ set_value (set_by settings.now) name.now }
{
    value_at(settings, names.place(name))
}

/// The value that is set for the global that a line declares.
pub fn value_for<'a>(settings: &'a [Given], names: &Locals, line: &Line) -> Option<&'a Value>
    requires { names.now ≡ names_given settings.now }
    ensures { option_copied result ≡ set_for (set_by settings.now) (line_of line.now) }
{
    match line {
        Line::Declare(_, name, _) => value_of(settings, names, name),
        Line::Infer(name, _) => value_of(settings, names, name),
        _ => None,
    }
}

/// What makes a value: of a list each item, and the list.
pub fn value_size(value: &Value) -> u64
    ensures { result ≡ capped (value_size value.now) }
{
    match value {
        Value::List(_, items) => (items.get().len() as u64).saturating_add(1),
        _ => 1,
    }
}
