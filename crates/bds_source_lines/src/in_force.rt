//! The names in force behind statements, and behind blocks.
ghost use Rattle.std.specs.Prelude.{◌≡◌, IfOk, false, take};
ghost use Rattle.std.specs.Option.{option_map};
ghost use Rattle.bds_tree.specs.StmtView.{line_of, right_of, small_of, small_form_of, stmt_of, stmt_form_of};
ghost use Rattle.bds_check_names.specs.Scopes as scopes;
ghost use Rattle.bds_check_rules.specs.Declarations.{declared_by_form, declared_by_line};
ghost use Rattle.bds_check_rules.specs.Declarations.{declared_by_small_form, names_with};
ghost use Rattle.bds_check_rules.specs.StmtBreaks as breaks;
ghost use Rattle.bds_meaning.specs.OpeningStatements as statements;
ghost use Rattle.bds_source_lines.specs.Opened.{within_for};

use bds_check_names::{Names, Site, declare_global, declare_local, inner, top};
use bds_check_rules::right_type;
use bds_tree::{Line, RightSide, Small, SmallForm, Stmt, StmtForm};
use bds_value::{Boxed, ByteText, NoMemory, Ty};
use std::alloc::Global;

/// Takes away the locals behind so many.
pub fn leave_block(names: &mut Names, count: usize)
    ensures { names.new ≡ scopes.with_locals names.old (take count names.old.locals) }
{
    names.locals.truncate(count);
}

fn go_behind_small_form(
    alloc: Global,
    names: &mut Names,
    site: &Site,
    form: &SmallForm,
) -> Result<(), NoMemory>
    requires { site.now.at_top ≡ false }
    ensures value { IfOk result (λ _.
        names.new ≡ names_with names.old site.now (declared_by_small_form (small_form_of form.now))) }
    ensures extends { scopes.Extends names.old names.new }
{
    match form {
        SmallForm::Declare(ty, name, _) => declare_local(alloc, names, site, name, ty),
        SmallForm::Infer(name, value) => declare_local(alloc, names, site, name, &value.ty),
        SmallForm::Assign(_, _)
        | SmallForm::Update(_, _, _)
        | SmallForm::Step(_)
        | SmallForm::Call(_) => Ok(()),
    }
}

/// The names behind the first part of a head.
fn go_behind_small(
    alloc: Global,
    names: &mut Names,
    site: &Site,
    small: &Option<Boxed<Small>>,
) -> Result<(), NoMemory>
    requires { site.now.at_top ≡ false }
    ensures value { IfOk result (λ _. names.new ≡ statements.behind_small names.old site.now (option_map small_of small.now)) }
    ensures extends { scopes.Extends names.old names.new }
{
    match small {
        None => Ok(()),
        Some(small) => go_behind_small_form(alloc, names, site, &small.get().form),
    }
}

/// The names within a `for`, behind its first part. Only want of memory refuses it.
pub fn go_behind_first(
    alloc: Global,
    names: &mut Names,
    site: &Site,
    small: &Option<Boxed<Small>>,
) -> Result<(), NoMemory>
    ensures value { IfOk result (λ _. names.new ≡ within_for names.old site.now (option_map small_of small.now)) }
    ensures extends { scopes.Extends names.old names.new }
{
    match inner(alloc, names, site) {
        Ok(site) => go_behind_small(alloc, names, &site, small),
        Err(fault) => Err(fault),
    }
}

/// The names behind a declaration: of a global at the top level, and else of a local.
fn go_behind_declaration(
    alloc: Global,
    names: &mut Names,
    site: &Site,
    name: &ByteText,
    ty: &Ty,
) -> Result<(), NoMemory>
    ensures value { IfOk result (λ _. names.new ≡ scopes.declare names.old site.now name.now ty.now) }
    ensures extends { site.now.at_top ≡ false → scopes.Extends names.old names.new }
{
    if site.at_top {
        declare_global(alloc, names, name, ty)
    } else {
        declare_local(alloc, names, site, name, ty)
    }
}

/// The names behind a declaration by its right side.
fn go_behind_inferred(
    alloc: Global,
    names: &mut Names,
    site: &Site,
    name: &ByteText,
    right: &RightSide,
) -> Result<(), NoMemory>
    ensures value { IfOk result (λ _. names.new ≡ scopes.declare names.old site.now name.now (breaks.right_type (right_of right.now))) }
    ensures extends { site.now.at_top ≡ false → scopes.Extends names.old names.new }
{
    match right_type(alloc, right) {
        Ok(ty) => go_behind_declaration(alloc, names, site, name, &ty),
        Err(NoMemory) => Err(NoMemory),
    }
}

fn go_behind_line(
    alloc: Global,
    names: &mut Names,
    site: &Site,
    line: &Line,
) -> Result<(), NoMemory>
    ensures value { IfOk result (λ _. names.new ≡ names_with names.old site.now (declared_by_line (line_of line.now))) }
    ensures extends { site.now.at_top ≡ false → scopes.Extends names.old names.new }
{
    match line {
        Line::Declare(ty, name, _) => go_behind_declaration(alloc, names, site, name, ty),
        Line::Infer(name, right) => go_behind_inferred(alloc, names, site, name, right),
        _ => Ok(()),
    }
}

fn go_behind_form(
    alloc: Global,
    names: &mut Names,
    site: &Site,
    form: &StmtForm,
) -> Result<(), NoMemory>
    ensures value { IfOk result (λ _.
        names.new ≡ names_with names.old site.now (declared_by_form (stmt_form_of form.now))) }
    ensures extends { site.now.at_top ≡ false → scopes.Extends names.old names.new }
{
    match form {
        StmtForm::Line(line) => go_behind_line(alloc, names, site, line),
        _ => Ok(()),
    }
}

/// The names behind a statement that isn't at the top level. Only want of memory refuses it.
pub fn go_behind(alloc: Global, names: &mut Names, site: &Site, stmt: &Stmt) -> Result<(), NoMemory>
    requires { site.now.at_top ≡ false }
    ensures value { IfOk result (λ _. names.new ≡ statements.behind names.old site.now (stmt_of stmt.now)) }
    ensures extends { scopes.Extends names.old names.new }
{
    go_behind_form(alloc, names, site, &stmt.form)
}

/// The names behind a statement at the top level. Only want of memory refuses it.
pub fn go_behind_top(alloc: Global, names: &mut Names, stmt: &Stmt) -> Result<(), NoMemory>
    ensures { IfOk result (λ _. names.new ≡ statements.behind names.old scopes.top (stmt_of stmt.now)) }
{
    let site = top();
    go_behind_form(alloc, names, &site, &stmt.form)
}
