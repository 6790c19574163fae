//! Trees by hand: which are legal.
use bds_spell::legal;
use bds_tree::{BinaryOp, Expr, Form, Line, Part, Script, Stmt, StmtForm};
use bds_value::{At, Boxed, Listed, NoMemory, Ty};
use std::alloc::Global;
use std::test::Fail;

const AT: At = At { file: 0, line: 1 };

fn expr(form: Form) -> Expr {
    Expr {
        at: AT,
        ty: Ty::Void,
        form,
    }
}

fn one() -> Expr {
    expr(Form::Number(1))
}

fn difference(alloc: Global, left: Expr, right: Expr) -> Result<Expr, NoMemory> {
    let left = Boxed::of(alloc, left)?;
    let right = Boxed::of(alloc, right)?;
    Ok(expr(Form::Binary(left, BinaryOp::Sub, right)))
}

fn boxed(alloc: Global, form: StmtForm) -> Result<Boxed<Stmt>, NoMemory> {
    Boxed::of(alloc, Stmt { at: AT, form })
}

/// `if (true)` and a then part.
fn choice(alloc: Global, yes: StmtForm) -> Result<StmtForm, NoMemory> {
    let yes = boxed(alloc, yes)?;
    Ok(StmtForm::If(expr(Form::Bool(true)), yes, None))
}

/// `if (true)`, a then part, and an else part.
fn choice_of_two(alloc: Global, yes: StmtForm, no: StmtForm) -> Result<StmtForm, NoMemory> {
    let yes = boxed(alloc, yes)?;
    let no = boxed(alloc, no)?;
    Ok(StmtForm::If(expr(Form::Bool(true)), yes, Some(no)))
}

/// A script of one statement.
fn script(alloc: Global, form: StmtForm) -> Result<Script, NoMemory> {
    let mut parts = Listed::new(alloc);
    parts.push(Part::Stmt(Stmt { at: AT, form }))?;
    Ok(Script {
        at: AT,
        files: Listed::new(alloc),
        parts,
    })
}

fn is_legal(alloc: Global, form: StmtForm) -> Result<bool, NoMemory> {
    let script = script(alloc, form)?;
    Ok(legal(&script))
}

fn printed(value: Expr) -> StmtForm {
    StmtForm::Line(Line::Println(Some(value)))
}

/// `1 - 1 - 1`, which has the first difference on its left.
fn left_difference(alloc: Global) -> Result<bool, NoMemory> {
    let left = difference(alloc, one(), one())?;
    let whole = difference(alloc, left, one())?;
    is_legal(alloc, printed(whole))
}

/// `1 - 1 - 1`, which has the second difference on its right.
fn right_difference(alloc: Global) -> Result<bool, NoMemory> {
    let right = difference(alloc, one(), one())?;
    let whole = difference(alloc, one(), right)?;
    is_legal(alloc, printed(whole))
}

#[test]
fn differences_bind_to_the_left(rt: HostRuntime) -> Result<(), Fail> {
    assert!(rt; left_difference(rt.alloc())?);
    assert!(rt; !right_difference(rt.alloc())?);
    Ok(())
}

/// An `else` that belongs to the nearer of two.
fn near_else(alloc: Global) -> Result<bool, NoMemory> {
    let inner = choice_of_two(alloc, printed(one()), StmtForm::Empty)?;
    let outer = choice(alloc, inner)?;
    is_legal(alloc, outer)
}

/// An `else` that belongs to the farther of two.
fn far_else(alloc: Global) -> Result<bool, NoMemory> {
    let inner = choice(alloc, printed(one()))?;
    let outer = choice_of_two(alloc, inner, StmtForm::Empty)?;
    is_legal(alloc, outer)
}

/// `;` as a then part without `else`.
fn empty_part(alloc: Global) -> Result<bool, NoMemory> {
    let whole = choice(alloc, StmtForm::Empty)?;
    is_legal(alloc, whole)
}

/// `;` as a then part with `else`.
fn empty_part_and_else(alloc: Global) -> Result<bool, NoMemory> {
    let whole = choice_of_two(alloc, StmtForm::Empty, StmtForm::Empty)?;
    is_legal(alloc, whole)
}

#[test]
fn an_else_has_the_nearest_if(rt: HostRuntime) -> Result<(), Fail> {
    assert!(rt; near_else(rt.alloc())?);
    assert!(rt; !far_else(rt.alloc())?);
    assert!(rt; empty_part(rt.alloc())?);
    assert!(rt; !empty_part_and_else(rt.alloc())?);
    Ok(())
}

/// Whether `;` is legal in file 0, and in file 1.
fn in_files(alloc: Global) -> Result<(bool, bool), NoMemory> {
    let mut script = script(alloc, StmtForm::Empty)?;
    let first = legal(&script);
    script.at.file = 1;
    Ok((first, legal(&script)))
}

/// Whether `;` is legal with the path of an include.
fn with_a_path(alloc: Global) -> Result<bool, NoMemory> {
    let mut script = script(alloc, StmtForm::Empty)?;
    script.files.push(Listed::new(alloc))?;
    Ok(legal(&script))
}

#[test]
fn wants_one_file(rt: HostRuntime) -> Result<(), Fail> {
    assert_eq!(rt; in_files(rt.alloc())?, (true, false));
    assert!(rt; !with_a_path(rt.alloc())?);
    Ok(())
}
