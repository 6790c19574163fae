//! The globals that the statements of the top level declare.
ghost use Rattle.std.specs.Prelude.{◌≡◌, IfOk, map};
ghost use Rattle.bds_tree.specs.StmtView.{part_of, stmt_form_of};
ghost use Rattle.bds_check_names.specs.Scopes as scopes;
ghost use Rattle.bds_check_rules.specs.Declarations.{declared_by_form, names_with};
ghost use Rattle.bds_check_typing.specs.WellTypedScripts as scripts;

use crate::globals::first_names;
use bds_check_names::{Globals, Names, declare_global};
use bds_check_rules::right_type;
use bds_tree::{Line, Part, StmtForm};
use bds_value::NoMemory;
use std::alloc::Global;

/// The names behind a statement at the top level.
pub fn declare_top(alloc: Global, names: &mut Names, form: &StmtForm) -> Result<(), NoMemory>
    ensures { IfOk result (λ _.
        names.new ≡ names_with names.old scopes.top (declared_by_form (stmt_form_of form.now))) }
{
    match form {
        StmtForm::Line(Line::Declare(ty, name, _)) => declare_global(alloc, names, name, ty),
        StmtForm::Line(Line::Infer(name, right)) => {
            let ty = right_type(alloc, right)?;
            declare_global(alloc, names, name, &ty)
        }
        _ => Ok(()),
    }
}

fn declare_part(alloc: Global, names: &mut Names, part: &Part) -> Result<(), NoMemory>
    ensures { IfOk result (λ _. names.new ≡ scripts.names_behind_part (part_of part.now) names.old) }
{
    match part {
        Part::Function(_) => Ok(()),
        Part::Include(_) => Ok(()),
        Part::Stmt(stmt) => declare_top(alloc, names, &stmt.form),
    }
}

/// The names at the top level behind all parts, which have their types.
fn names_behind(alloc: Global, parts: &[Part]) -> Result<Names, NoMemory>
    ensures { IfOk result (λ names. names ≡ scripts.names_behind_parts (map part_of parts.now)
        (scripts.first_names (map part_of parts.now))) }
{
    let mut names = first_names(alloc, parts, false)?;
    for part in parts {
        declare_part(alloc, &mut names, part)?;
    }
    Ok(names)
}

/// The globals that the top level declares, whose parts have their types.
pub fn declared_globals(alloc: Global, parts: &[Part]) -> Result<Globals, NoMemory>
    ensures { IfOk result (λ globals. globals ≡ (scripts.names_behind_parts (map part_of parts.now)
        (scripts.first_names (map part_of parts.now))).globals) }
{
    let Names { globals, .. } = names_behind(alloc, parts)?;
    Ok(globals)
}
