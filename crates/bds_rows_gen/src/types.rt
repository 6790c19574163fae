//! Tests of what no clause says: operators and the types that they take.
use bds_check_names::{Asked, Functions, Globals, Locals, Names};
use bds_check_rules::*;
use bds_tree::{BinaryOp, Expr, Form};
use bds_value::{At, Boxed, Listed, NoMemory, Shared, Ty};
use std::alloc::Global;
use std::test::Fail;

/// Two types, inside out: `t[` is a list of texts. The operator, and the type of the whole or the
/// rule that it breaks.
const SUMS: [(&[u8], BinaryOp, &[u8], u8); 24] = [
    (b"i", BinaryOp::Add, b"i", b'i'),
    (b"t", BinaryOp::Add, b"i", b't'),
    (b"b", BinaryOp::Add, b"t", b't'),
    (b"t", BinaryOp::Add, b"", b't'),
    (b"", BinaryOp::Add, b"t", b'v'),
    (b"b", BinaryOp::Add, b"b", b'!'),
    (b"t[", BinaryOp::Add, b"t", b'['),
    (b"t[", BinaryOp::Add, b"t[", b'['),
    (b"i[", BinaryOp::Add, b"t", b't'),
    (b"i[", BinaryOp::Add, b"b", b'!'),
    (b"i[[", BinaryOp::Add, b"i[", b'['),
    (b"i{", BinaryOp::Add, b"i{", b'!'),
    (b"i", BinaryOp::Sub, b"i", b'i'),
    (b"i", BinaryOp::Rem, b"t", b'!'),
    (b"b", BinaryOp::Or, b"b", b'b'),
    (b"b", BinaryOp::And, b"i", b'!'),
    (b"b", BinaryOp::Equal, b"b", b'b'),
    (b"i", BinaryOp::NotEqual, b"t", b'!'),
    (b"i[", BinaryOp::Equal, b"i[", b'!'),
    (b"t", BinaryOp::Less, b"t", b'b'),
    (b"b", BinaryOp::AtLeast, b"b", b'!'),
    (b"", BinaryOp::Greater, b"i", b'b'),
    (b"", BinaryOp::Equal, b"i{", b'!'),
    (b"", BinaryOp::Mul, b"", b'i'),
];

fn ty(alloc: Global, code: &[u8]) -> Result<Ty, NoMemory> {
    let mut ty = Ty::Void;
    for byte in code {
        ty = outer(alloc, *byte, ty)?;
    }
    Ok(ty)
}

fn outer(alloc: Global, byte: u8, inner: Ty) -> Result<Ty, NoMemory> {
    match byte {
        b'b' => Ok(Ty::Bool),
        b'i' => Ok(Ty::Int),
        b't' => Ok(Ty::Text),
        b'[' => Ok(Ty::List(Shared::of(alloc, inner)?)),
        b'{' => Ok(Ty::Map(Shared::of(alloc, inner)?)),
        _ => Ok(Ty::Void),
    }
}

fn code(ty: &Ty) -> u8 {
    match ty {
        Ty::Bool => b'b',
        Ty::Int => b'i',
        Ty::Text => b't',
        Ty::List(_) => b'[',
        Ty::Map(_) => b'{',
        Ty::Void => b'v',
    }
}

fn names(alloc: Global) -> Result<Names, NoMemory> {
    Ok(Names {
        functions: Functions::of(alloc, Listed::new(alloc))?,
        globals: Globals::new(alloc),
        locals: Locals::new(alloc),
        finding: false,
    })
}

fn operand(alloc: Global, ty: Ty) -> Result<Boxed<Expr>, NoMemory> {
    let at = At { file: 0, line: 1 };
    Boxed::of(
        alloc,
        Expr {
            at,
            ty,
            form: Form::Bool(true),
        },
    )
}

fn binary(alloc: Global, left: &[u8], op: BinaryOp, right: &[u8]) -> Result<Form, NoMemory> {
    let left = operand(alloc, ty(alloc, left)?)?;
    let right = operand(alloc, ty(alloc, right)?)?;
    Ok(Form::Binary(left, op, right))
}

/// The type of an expression, or `!` where it breaks a rule.
fn answer(alloc: Global, form: &Form) -> Result<u8, NoMemory> {
    let names = names(alloc)?;
    match rule_of_form(alloc, &names, &Asked::Value, form)? {
        Some(_) => Ok(b'!'),
        None => Ok(code(&type_of_form(alloc, &names, &Asked::Value, form)?)),
    }
}

fn judge(alloc: Global, left: &[u8], op: BinaryOp, right: &[u8]) -> Result<u8, NoMemory> {
    let form = binary(alloc, left, op, right)?;
    answer(alloc, &form)
}

#[test]
fn operands_have_types(rt: HostRuntime) -> Result<(), Fail> {
    for (left, op, right, want) in SUMS {
        assert_eq!(rt; judge(rt.alloc(), left, op, right)?, want);
    }
    Ok(())
}
