//! What a statement or act does around its parts: what it asks of them, then its rule, its names, and a block left.
ghost use Rattle.std.specs.Prelude.{◌≡◌, IfOk, length, false, None, Some, ⊤};
ghost use Rattle.bds_tree.specs.StmtView.{stmt_form_of, line_of, right_of, act_form_of, block_of};
ghost use Rattle.bds_check_typing.specs.Answers.{Fits};
ghost use Rattle.bds_check_names.specs.declared.names.Asked.TheVariants.{This};
ghost use Rattle.bds_check_names.specs.Scopes.{Extends, declare};
ghost use Rattle.bds_check_rules.specs.Declarations.{declared_by_form, declared_by_line, names_with};
ghost use Rattle.bds_check_rules.specs.StmtBreaks as breaks;
ghost use Rattle.bds_check_typing.specs.StmtParts as walk;

use bds_check_names::{Asked, Names, Site, declare_local, has_too_many, is_known};
use bds_check_rules::{CheckFault, Rule, act_rule, right_type, stmt_rule};
use bds_tree::{Act, ActForm, Block, Line, RightSide, Stmt, StmtForm};
use bds_value::{ByteText, NoMemory, Ty, copy_ty};
use std::alloc::Global;

/// Takes away the locals behind so many, so that the names are those that had so many.
pub fn leave_block(names: &mut Names, count: usize)
    ensures { (before : Names) → Extends before names.old → count ≡ length before.locals → names.new ≡ before }
{
    names.locals.truncate(count);
}

/// The names behind a declaration by its right side.
fn declare_inferred(
    alloc: Global,
    names: &mut Names,
    site: &Site,
    name: &ByteText,
    right: &RightSide,
) -> Result<(), NoMemory>
    requires { site.now.at_top ≡ false }
    ensures value { IfOk result (λ _. names.new ≡ declare names.old site.now name.now
        (breaks.right_type (right_of right.now))) }
    ensures extends { Extends names.old names.new }
{
    match right_type(alloc, right) {
        Ok(ty) => declare_local(alloc, names, site, name, &ty),
        Err(NoMemory) => Err(NoMemory),
    }
}

/// The names behind a line.
fn declare_line(alloc: Global, names: &mut Names, site: &Site, line: &Line) -> Result<(), NoMemory>
    requires { site.now.at_top ≡ false }
    ensures value { IfOk result (λ _. names.new ≡ names_with names.old site.now (declared_by_line (line_of line.now))) }
    ensures extends { Extends names.old names.new }
{
    match line {
        Line::Declare(ty, name, _) => declare_local(alloc, names, site, name, ty),
        Line::Infer(name, right) => declare_inferred(alloc, names, site, name, right),
        _ => Ok(()),
    }
}

/// The names behind a statement.
fn declare_form(
    alloc: Global,
    names: &mut Names,
    site: &Site,
    form: &StmtForm,
) -> Result<(), NoMemory>
    requires { site.now.at_top ≡ false }
    ensures value { IfOk result (λ _.
        names.new ≡ names_with names.old site.now (declared_by_form (stmt_form_of form.now))) }
    ensures extends { Extends names.old names.new }
{
    match form {
        StmtForm::Line(line) => declare_line(alloc, names, site, line),
        _ => Ok(()),
    }
}

/// A statement behind its parts.
pub fn close_stmt(
    alloc: Global,
    names: &mut Names,
    site: &Site,
    stmt: &Stmt,
) -> Result<(), CheckFault>
    requires { site.now.at_top ≡ false }
    ensures fits { Fits result (walk.close_stmt stmt.now.at names.old site.now
        (record { form = stmt_form_of stmt.now.form; broken = None })).broken
        (λ _. names.new ≡ names_with names.old site.now (declared_by_form (stmt_form_of stmt.now.form))) }
    ensures extends { Extends names.old names.new }
{
    if let Some(rule) = stmt_rule(alloc, names, site, &stmt.form)? {
        return Err(CheckFault::Broken { rule, at: stmt.at });
    }
    Ok(declare_form(alloc, names, site, &stmt.form)?)
}

/// An act behind its parts.
pub fn close_act(names: &Names, asked: &Asked, act: &Act) -> Result<(), CheckFault>
    ensures { Fits result (walk.close_act act.now.at names.now asked.now (record {
      form = act_form_of act.now.form;
      broken = None;
    })).broken (λ _. ⊤) }
{
    match act_rule(names, asked, &act.form) {
        Some(rule) => Err(CheckFault::Broken { rule, at: act.at }),
        None => Ok(()),
    }
}

/// The block of a `par` behind its statements.
pub fn close_par(names: &Names, block: &Block) -> Result<(), CheckFault>
    ensures { Fits result (walk.par_block_with names.now (record {
      block = block_of block.now;
      broken = None;
    })).broken (λ _. ⊤) }
{
    if has_too_many(&names.locals, block) {
        return Err(CheckFault::Broken {
            rule: Rule::TooManyLocals,
            at: block.at,
        });
    }
    Ok(())
}

fn this(alloc: Global, ty: &Ty) -> Result<Asked, NoMemory>
    ensures { IfOk result (λ a. a ≡ This ty.now) }
{
    match copy_ty(alloc, ty) {
        Ok(ty) => Ok(Asked::This(ty)),
        Err(NoMemory) => Err(NoMemory),
    }
}

/// A type, or any where it isn't known.
fn known(alloc: Global, ty: &Ty) -> Result<Asked, NoMemory>
    ensures { IfOk result (λ a. a ≡ walk.returned (Some ty.now)) }
{
    if is_known(ty) {
        this(alloc, ty)
    } else {
        Ok(Asked::Value)
    }
}

/// What is asked of the value of a `return`.
pub fn returned(alloc: Global, returns: &Option<Ty>) -> Result<Asked, NoMemory>
    ensures { IfOk result (λ a. a ≡ walk.returned returns.now) }
{
    match returns {
        None => Ok(Asked::Value),
        Some(ty) => known(alloc, ty),
    }
}
