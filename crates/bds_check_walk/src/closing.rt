//! An expression behind its parts: its rule is judged, and it gets its type.
ghost use Rattle.std.specs.Prelude.{◌≡◌};
ghost use Rattle.bds_tree.specs.View.{tree_of};
ghost use Rattle.bds_tree.specs.Tree.{node, at_of, form_of};
ghost use Rattle.bds_check_typing.specs.Walk as walk;
ghost use Rattle.bds_check_walk.specs.InPlace.{bare_expr, LeavesExpr};

use bds_check_names::{Asked, Names};
use bds_check_rules::{CheckFault, or_deep, rule_of_form, type_of_form};
use bds_tree::Expr;
use bds_value::Ty;
use std::alloc::Global;

fn give_type(expr: &mut Expr, ty: Ty)
    ensures { tree_of expr.new ≡ node (at_of (tree_of expr.old)) ty (form_of (tree_of expr.old)) }
{
    expr.ty = ty;
}

/// An expression behind its parts.
pub fn close(alloc: Global, names: &Names, asked: &Asked, expr: &mut Expr) -> Result<(), CheckFault>
    ensures fits { LeavesExpr result (tree_of expr.new) (walk.close (at_of (tree_of expr.old)) names.now asked.now
        (walk.alone (form_of (tree_of expr.old)))) }
    ensures kept { bare_expr (tree_of expr.new) ≡ bare_expr (tree_of expr.old) }
{
    let ty = type_of_form(alloc, names, asked, &expr.form)?;
    let rule = rule_of_form(alloc, names, asked, &expr.form)?;
    match or_deep(rule, &ty) {
        Some(rule) => Err(CheckFault::Broken { rule, at: expr.at }),
        None => {
            give_type(expr, ty);
            Ok(())
        }
    }
}
