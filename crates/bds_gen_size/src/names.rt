//! The names in force behind a declaration, and in a `par` block.
ghost use Rattle.std.specs.Prelude.{◌≡◌, ◌++◌, ◌∷◌, [], OnOk, IfOk};
ghost use Rattle.std.specs.Option.{option_map};
ghost use Rattle.bds_tree.specs.StmtView.{stmt_of, line_of, right_of, small_of};
ghost use Rattle.bds_check_names.specs.Scopes.{variable};
ghost use Rattle.bds_check_rules.specs.Declarations.{declared_by_line};
ghost use Rattle.bds_gen_expr.specs.Numbers.{visible_locals, numbered};
ghost use Rattle.bds_gen_size.specs.Behind.{scope_behind, scope_behind_small, scope_with, with_name};

use bds_check_names::variable;
use bds_check_rules::right_type;
use bds_gen_expr::{Locals, Numbered, Scope};
use bds_tree::{Line, Small, SmallForm, Stmt, StmtForm};
use bds_value::{Boxed, ByteText, NoMemory, Ty};
use std::alloc::Global;

/// One more local. Sizes don't depend on its number.
pub fn push_local(
    alloc: Global,
    scope: &mut Scope,
    name: &ByteText,
    ty: &Ty,
) -> Result<(), NoMemory>
    ensures { OnOk result (scope.new ≡ with_name scope.old name.now ty.now) }
{
    let variable = variable(alloc, name, ty)?;
    let local = Numbered {
        variable,
        number: 0,
    };
    scope.locals.push(alloc, local)
}

/// The names behind a line of a block.
fn declare_line(alloc: Global, scope: &mut Scope, line: &Line) -> Result<(), NoMemory>
    ensures { OnOk result (scope.new ≡ scope_with scope.old (declared_by_line (line_of line.now))) }
{
    match line {
        Line::Declare(ty, name, _) => push_local(alloc, scope, name, ty),
        Line::Infer(name, right) => {
            let ty = right_type(alloc, right)?;
            push_local(alloc, scope, name, &ty)
        }
        _ => Ok(()),
    }
}

/// The names behind a statement of a block.
pub fn declare_stmt(alloc: Global, scope: &mut Scope, stmt: &Stmt) -> Result<(), NoMemory>
    ensures { OnOk result (scope.new ≡ scope_behind (stmt_of stmt.now) scope.old) }
{
    match &stmt.form {
        StmtForm::Line(line) => declare_line(alloc, scope, line),
        _ => Ok(()),
    }
}

/// The names behind the first part of a `for`.
pub fn declare_small(
    alloc: Global,
    scope: &mut Scope,
    small: &Option<Boxed<Small>>,
) -> Result<(), NoMemory>
    ensures { OnOk result (scope.new ≡ scope_behind_small (option_map small_of small.now) scope.old) }
{
    match small {
        None => Ok(()),
        Some(small) => match &small.get().form {
            SmallForm::Declare(ty, name, _) => push_local(alloc, scope, name, ty),
            SmallForm::Infer(name, value) => push_local(alloc, scope, name, &value.ty),
            _ => Ok(()),
        },
    }
}

fn copy_local(alloc: Global, local: &Numbered) -> Result<Numbered, NoMemory>
    ensures { IfOk result (λ copied. copied ≡ local.now) }
{
    let variable = variable(alloc, &local.variable.name, &local.variable.ty)?;
    Ok(Numbered {
        variable,
        number: local.number,
    })
}

/// The locals that no later one of their name hides.
pub fn visible(alloc: Global, locals: &Locals) -> Result<Locals, NoMemory>
    ensures { IfOk result (λ seen. seen ≡ visible_locals locals.now) }
{
    let mut seen = Locals::new(alloc);
    for (i, local) in locals.as_slice().iter().enumerate() {
        if !locals.is_named_behind(i.saturating_add(1), &local.variable.name) {
            seen.push(alloc, copy_local(alloc, local)?)?;
        }
    }
    Ok(seen)
}
