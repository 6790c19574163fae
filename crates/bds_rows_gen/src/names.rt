//! Tests of what no clause says: rows of methods by name, and nesting.
use bds_check_names::*;
use bds_value::{ByteText, Listed, NoMemory, Shared, Ty};
use std::alloc::Global;
use std::test::Fail;

/// A receiver, a method with so many arguments, and the type that it gives; `-` where there is none.
const METHODS: [(&[u8], &[u8], usize, u8); 16] = [
    (b"t", b"length", 0, b'i'),
    (b"t", b"length", 1, b'-'),
    (b"i", b"length", 0, b'-'),
    (b"t", b"split", 1, b'['),
    (b"t", b"write", 1, b'v'),
    (b"t", b"isEmpty", 0, b'b'),
    (b"i[", b"head", 0, b'i'),
    (b"i[[", b"head", 0, b'['),
    (b"t[", b"join", 1, b't'),
    (b"i[", b"join", 1, b'-'),
    (b"b[", b"sort", 0, b'-'),
    (b"t[[", b"has", 1, b'-'),
    (b"b[", b"has", 1, b'b'),
    (b"i{", b"keys", 0, b'['),
    (b"i[{", b"values", 0, b'['),
    (b"", b"size", 0, b'-'),
];

/// The type that a code stands for, whose bytes lead from inside to outside.
pub fn ty(alloc: Global, code: &[u8]) -> Result<Ty, NoMemory> {
    let mut ty = Ty::Void;
    for byte in code {
        ty = outer(alloc, *byte, ty)?;
    }
    Ok(ty)
}

fn outer(alloc: Global, byte: u8, inner: Ty) -> Result<Ty, NoMemory> {
    match byte {
        b'b' => Ok(Ty::Bool),
        b'i' => Ok(Ty::Int),
        b't' => Ok(Ty::Text),
        b'[' => Ok(Ty::List(Shared::of(alloc, inner)?)),
        b'{' => Ok(Ty::Map(Shared::of(alloc, inner)?)),
        _ => Ok(Ty::Void),
    }
}

fn code(ty: &Ty) -> u8 {
    match ty {
        Ty::Bool => b'b',
        Ty::Int => b'i',
        Ty::Text => b't',
        Ty::List(_) => b'[',
        Ty::Map(_) => b'{',
        Ty::Void => b'v',
    }
}

fn given(row: &Option<Row>) -> u8 {
    match row {
        Some(row) => code(&row.gives),
        None => b'-',
    }
}

fn method(alloc: Global, receiver: &[u8], name: &[u8], count: usize) -> Result<u8, NoMemory> {
    let mut text: ByteText = Listed::new(alloc);
    text.append(name)?;
    let receiver = ty(alloc, receiver)?;
    let row = row_of(alloc, &receiver, &text, count)?;
    Ok(given(&row))
}

#[test]
fn methods_have_rows(rt: HostRuntime) -> Result<(), Fail> {
    for (receiver, name, count, want) in METHODS {
        assert_eq!(rt; method(rt.alloc(), receiver, name, count)?, want);
    }
    Ok(())
}

/// Names of one byte with the codes of their types, the last `x` in an inner block.
const NESTED: [(u8, u8); 3] = [(b'x', b'i'), (b'y', b'b'), (b'x', b't')];

/// How many of these are left, a name and the type that it has there; `-` where it isn't in force.
const LEFT: [(usize, u8, u8); 6] = [
    (3, b'x', b't'),
    (3, b'y', b'b'),
    (3, b'z', b'-'),
    (2, b'x', b'i'),
    (1, b'y', b'-'),
    (0, b'x', b'-'),
];

fn local(alloc: Global, byte: u8, code: u8) -> Result<Variable, NoMemory> {
    let mut name: ByteText = Listed::new(alloc);
    name.append(&[byte])?;
    let ty = outer(alloc, code, Ty::Void)?;
    Ok(Variable { name, ty })
}

fn declare_nested(alloc: Global, locals: &mut Locals) -> Result<(), NoMemory> {
    for (byte, code) in NESTED {
        locals.push(alloc, local(alloc, byte, code)?)?;
    }
    Ok(())
}

fn code_there(locals: &Locals, name: &ByteText) -> u8 {
    match locals.type_of(name) {
        Some(ty) => code(ty),
        None => b'-',
    }
}

fn code_left(alloc: Global, locals: &mut Locals, count: usize, byte: u8) -> Result<u8, NoMemory> {
    let wanted = local(alloc, byte, b'v')?;
    declare_nested(alloc, locals)?;
    locals.truncate(count);
    Ok(code_there(locals, &wanted.name))
}

fn left(alloc: Global, count: usize, byte: u8) -> Result<u8, NoMemory> {
    let mut locals = Locals::new(alloc);
    code_left(alloc, &mut locals, count, byte)
}

#[test]
fn an_outer_local_is_found_again(rt: HostRuntime) -> Result<(), Fail> {
    for (count, byte, want) in LEFT {
        assert_eq!(rt; left(rt.alloc(), count, byte)?, want);
    }
    Ok(())
}
