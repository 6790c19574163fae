//! The parts of a script that stand in the program of each test.
ghost use Rattle.std.specs.Prelude.{◌≡◌, filter, map};
ghost use Rattle.bds_tree.specs.StmtView.{part_of, stmt_form_of};
ghost use Rattle.bds_check_tests.specs.Tests.{is_declaring_form, is_kept as is_kept_part};

use bds_tree::{Line, Part, Parts, StmtForm};
use bds_value::Listed;

/// It declares a variable.
fn is_declaration(form: &StmtForm) -> bool
    ensures { result ≡ is_declaring_form (stmt_form_of form.now) }
{
    match form {
        StmtForm::Line(Line::Declare(_, _, _)) => true,
        StmtForm::Line(Line::Infer(_, _)) => true,
        _ => false,
    }
}

/// It is a function or declares a variable.
fn is_kept(part: &Part) -> bool
    ensures { result ≡ is_kept_part (part_of part.now) }
{
    match part {
        Part::Function(_) => true,
        Part::Include(_) => false,
        Part::Stmt(stmt) => is_declaration(&stmt.form),
    }
}

/// The functions and the declarations of variables among parts.
pub fn kept_parts(parts: Parts) -> Parts
    ensures { map part_of result ≡ filter is_kept_part (map part_of parts) }
{
    let mut items = parts.into_vec();
    items.retain(|part| is_kept(part));
    Listed::from_vec(items)
}
