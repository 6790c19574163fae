//! The call of a test.
ghost use Rattle.std.specs.Prelude.{◌≡◌, IfOk};
ghost use Rattle.bds_tree.specs.StmtView.{function_of, stmt_of};
ghost use Rattle.bds_check_tests.specs.Tests.{call_of as call_of_test, call_named as call_named_of};

use bds_tree::{Expr, Form, Function, Line, Stmt, StmtForm};
use bds_value::{At, ByteText, Listed, NoMemory, Ty, copy_text, copy_ty};
use std::alloc::Global;

/// A call of this name without arguments, as a statement.
fn call_named(alloc: Global, at: At, ty: Ty, name: ByteText) -> Stmt
    ensures { stmt_of result ≡ call_named_of at ty name }
{
    let call = Expr {
        at,
        ty,
        form: Form::Call(name, Listed::new(alloc)),
    };
    Stmt {
        at,
        form: StmtForm::Line(Line::Call(call)),
    }
}

/// A call of a function without parameters, which stands where the function stands.
pub fn call_of(alloc: Global, function: &Function) -> Result<Stmt, NoMemory>
    ensures { IfOk result (λ s. stmt_of s ≡ call_of_test (function_of function.now)) }
{
    let name = copy_text(alloc, &function.name)?;
    let ty = copy_ty(alloc, &function.result)?;
    Ok(call_named(alloc, function.at, ty, name))
}
