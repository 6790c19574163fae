//! The code of the top level.
ghost use Rattle.std.specs.Prelude.{◌≡◌, true, OnOk, map};
ghost use Rattle.std.specs.Option.{option_copied};
ghost use Rattle.bds_tree.specs.StmtView.{part_of, stmt_of};
ghost use Rattle.bds_gen_size.specs.GivenNames.{names_given};
ghost use Rattle.bds_check_typing.specs.GivenValues.{set_by};
ghost use Rattle.bds_gen_unit.specs.Tops.{PartWritten, SetWritten, TopWritten, TopsWritten, names_global, set_in};

use crate::functions::take_function;
use crate::values::write_value;
use bds_check::Given;
use bds_check_names::Locals as Variables;
use bds_code::Instr;
use bds_gen_expr::act;
use bds_gen_size::{names_given, value_for};
use bds_gen_stmt_code::{Unfinished, gen_stmt, slot_number};
use bds_tree::{Part, Stmt, StmtForm};
use bds_value::{NoMemory, Value};
use std::alloc::Global;

/// A value that words give the global of a line, in the place of what is on its right: that is written into
/// a function that is dropped, so that of it only the functions of `par` blocks stay.
fn write_set(
    alloc: Global,
    unit: &mut Unfinished,
    stmt: &Stmt,
    value: &Value,
) -> Result<(), NoMemory>
    requires high { unit.old.body.at_top ≡ true }
    requires names { names_global (stmt_of stmt.now) ≡ true }
    ensures { OnOk result (SetWritten value.now (stmt_of stmt.now) unit.old unit.new) }
{
    let at = stmt.at;
    let global = slot_number(unit.body.scope.globals.as_slice().len())?;
    let function = take_function(alloc, unit)?;
    gen_stmt(alloc, unit, stmt)?;
    unit.body.function = function;
    write_value(alloc, &mut unit.body.function, at, value)?;
    act(&mut unit.body.function, at, Instr::StoreGlobal(global))
}

/// The value that words give the global of a statement's line.
fn value_in<'a>(settings: &'a [Given], set: &Variables, stmt: &Stmt) -> Option<&'a Value>
    requires { set.now ≡ names_given settings.now }
    ensures { option_copied result ≡ set_in (set_by settings.now) (stmt_of stmt.now) }
{
    match &stmt.form {
        StmtForm::Line(line) => value_for(settings, set, line),
        _ => None,
    }
}

/// A statement at the top level.
fn write_top(
    alloc: Global,
    unit: &mut Unfinished,
    stmt: &Stmt,
    settings: &[Given],
    set: &Variables,
) -> Result<(), NoMemory>
    requires names { set.now ≡ names_given settings.now }
    requires high { unit.old.body.at_top ≡ true }
    ensures { OnOk result (TopWritten (set_by settings.now) (stmt_of stmt.now) unit.old unit.new) }
{
    match value_in(settings, set, stmt) {
        Some(value) => write_set(alloc, unit, stmt, value),
        None => gen_stmt(alloc, unit, stmt),
    }
}

/// A part at the top level. Functions stand elsewhere.
fn write_part(
    alloc: Global,
    unit: &mut Unfinished,
    part: &Part,
    settings: &[Given],
    set: &Variables,
) -> Result<(), NoMemory>
    requires names { set.now ≡ names_given settings.now }
    requires high { unit.old.body.at_top ≡ true }
    ensures { OnOk result (PartWritten (set_by settings.now) (part_of part.now) unit.old unit.new) }
{
    match part {
        Part::Function(_) => Ok(()),
        Part::Include(_) => Ok(()),
        Part::Stmt(stmt) => write_top(alloc, unit, stmt, settings, set),
    }
}

/// The statements of the top level.
pub fn write_tops(
    alloc: Global,
    unit: &mut Unfinished,
    parts: &[Part],
    settings: &[Given],
) -> Result<(), NoMemory>
    requires { unit.old.body.at_top ≡ true }
    ensures { OnOk result (TopsWritten (set_by settings.now) (map part_of parts.now) unit.old unit.new) }
{
    let set = names_given(alloc, settings)?;
    for part in parts {
        write_part(alloc, unit, part, settings, &set)?;
    }
    Ok(())
}
