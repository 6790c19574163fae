//! The code of each form of expression.
use crate::showing::shown;
use bds_check_names::{Asked, Functions, Globals, Head, Locals, Names as CheckedNames, Variable};
use bds_check_walk::walk;
use bds_code::{Function, Shape};
use bds_gen_expr::{
    Callee, Callees, Globals as ScopeGlobals, Locals as ScopeLocals, Names, Numbered, Scope,
    gen_expr, write_expr,
};
use bds_lex::tokens;
use bds_parse_expr::expr;
use bds_tree::{Expr, Tokens};
use bds_value::{ByteText, Listed, MAX_TEXT, NoMemory, Shared, Ty, Types};
use std::alloc::Global;
use std::test::Fail;

/// Expressions and their code. `i`, `b`, `t`, `l`, `n` and `m` are globals: a number, a truth, a text, texts,
/// numbers, and a map of texts; `x` is a number in slot 3, and `f` takes a number and a text. Before a place that has a label
/// stand its number and the types of the operands there.
const ROWS: [(&str, &str); 42] = [
    ("40 + 2", "PushInt(40) PushInt(2) Add "),
    ("true", "PushBool(true) "),
    ("i", "LoadGlobal(0) "),
    ("x", "Load(3) "),
    ("(i)", "LoadGlobal(0) "),
    ("'a'", "'a' "),
    ("''", "'' "),
    ("\"a$i.\"", "'a' LoadGlobal(0) Blank Concat '.' Concat "),
    ("\"$n[3]\"", "LoadGlobal(4) PushInt(3) Item Blank "),
    ("\"$n[x]\"", "LoadGlobal(4) Load(3) Item Blank "),
    ("\"$m{'k'}\"", "LoadGlobal(5) 'k' Key Blank "),
    ("\"$m{t}\"", "LoadGlobal(5) LoadGlobal(2) Key Blank "),
    ("\"$i[3]\"", "LoadGlobal(0) Blank '[3]' Concat "),
    ("[1, 2]", "PushInt(1) PushInt(2) MakeList(Int, 2) "),
    ("({ 'a' => 1 })", "'a' PushInt(1) MakeMap(Int, 1) "),
    ("-i", "LoadGlobal(0) Neg "),
    ("!b", "LoadGlobal(1) Not "),
    ("n + 1", "LoadGlobal(4) PushInt(1) ListAdd "),
    ("n + n", "LoadGlobal(4) LoadGlobal(4) ListCat "),
    ("t + i", "LoadGlobal(2) Show LoadGlobal(0) Show Concat "),
    ("i - 1", "LoadGlobal(0) PushInt(1) Sub "),
    ("i * 2", "LoadGlobal(0) PushInt(2) Mul "),
    ("i / 2", "LoadGlobal(0) PushInt(2) Div "),
    ("i % 2", "LoadGlobal(0) PushInt(2) Rem "),
    ("i == 1", "LoadGlobal(0) PushInt(1) Equal "),
    ("i != 1", "LoadGlobal(0) PushInt(1) NotEqual "),
    ("i < 1", "LoadGlobal(0) PushInt(1) Less "),
    ("i <= 1", "LoadGlobal(0) PushInt(1) LessEqual "),
    ("i > 1", "LoadGlobal(0) PushInt(1) Greater "),
    ("i >= 1", "LoadGlobal(0) PushInt(1) GreaterEqual "),
    (
        "b && true",
        "LoadGlobal(1) JumpUnless(4) PushBool(true) Jump(5) 4: PushBool(false) 5:Bool ",
    ),
    (
        "b || true",
        "LoadGlobal(1) JumpUnless(4) PushBool(true) Jump(5) 4: PushBool(true) 5:Bool ",
    ),
    (
        "b ? 1 : 2",
        "LoadGlobal(1) JumpUnless(4) PushInt(1) Jump(5) 4: PushInt(2) 5:Int ",
    ),
    ("n[0]", "LoadGlobal(4) PushInt(0) Item "),
    ("m{'k'}", "LoadGlobal(5) 'k' Key "),
    (
        "f(1, b ? 'a' : t)",
        "PushInt(1) LoadGlobal(1) JumpUnless(5) 'a' Jump(6) 5:Int LoadGlobal(2) 6:Int,Text Call(7) ",
    ),
    ("t.replace('a', 'b')", "LoadGlobal(2) 'a' 'b' Method(9) "),
    ("l.size()", "LoadGlobal(3) Method(17) "),
    ("t.readLines()", "LoadGlobal(2) FileRead Method(29) "),
    ("t.write('a')", "LoadGlobal(2) 'a' FileWrite "),
    ("t.size()", "LoadGlobal(2) FileStamp(2) "),
    (
        "t <- l",
        "LoadGlobal(2) MakeList(Text, 1) LoadGlobal(3) OutOfDate ",
    ),
];

fn text(alloc: Global, text: &str) -> Result<ByteText, NoMemory> {
    Ok(Listed::from_vec(Vec::from_slice(alloc, text.as_bytes())?))
}

fn tokens_of(alloc: Global, source: &str) -> Result<Tokens, Fail> {
    let source = text(alloc, source)?;
    if source.len() as u64 > MAX_TEXT {
        return Ok(Listed::new(alloc));
    }
    Ok(tokens(alloc, &source)?)
}

/// The globals by their numbers.
const GLOBALS: [(&str, u8); 6] = [
    ("i", b'i'),
    ("b", b'b'),
    ("t", b't'),
    ("l", b'l'),
    ("n", b'n'),
    ("m", b'm'),
];

fn ty(alloc: Global, code: u8) -> Result<Ty, NoMemory> {
    match code {
        b'b' => Ok(Ty::Bool),
        b't' => Ok(Ty::Text),
        b'l' => Ok(Ty::List(Shared::of(alloc, Ty::Text)?)),
        b'n' => Ok(Ty::List(Shared::of(alloc, Ty::Int)?)),
        b'm' => Ok(Ty::Map(Shared::of(alloc, Ty::Text)?)),
        _ => Ok(Ty::Int),
    }
}

fn variable(alloc: Global, name: &str, code: u8) -> Result<Variable, NoMemory> {
    let name = text(alloc, name)?;
    let ty = ty(alloc, code)?;
    Ok(Variable { name, ty })
}

fn checked_globals(alloc: Global) -> Result<Globals, NoMemory> {
    let mut globals = Globals::new(alloc);
    for (name, code) in &GLOBALS {
        let Variable { name, ty } = variable(alloc, name, *code)?;
        globals.declare(alloc, &name, ty)?;
    }
    Ok(globals)
}

fn checked_locals(alloc: Global) -> Result<Locals, NoMemory> {
    let mut locals = Locals::new(alloc);
    locals.push(alloc, variable(alloc, "x", b'i')?)?;
    Ok(locals)
}

fn parameters(alloc: Global) -> Result<Types, NoMemory> {
    let mut types = Listed::new(alloc);
    types.push(Ty::Int)?;
    types.push(Ty::Text)?;
    Ok(types)
}

fn head(alloc: Global) -> Result<Head, NoMemory> {
    let name = text(alloc, "f")?;
    let parameters = parameters(alloc)?;
    Ok(Head {
        name,
        parameters,
        result: Ty::Int,
    })
}

fn checked_functions(alloc: Global) -> Result<Functions, NoMemory> {
    let mut heads = Listed::new(alloc);
    heads.push(head(alloc)?)?;
    Functions::of(alloc, heads)
}

fn checked_names(alloc: Global) -> Result<CheckedNames, NoMemory> {
    let functions = checked_functions(alloc)?;
    let globals = checked_globals(alloc)?;
    let locals = checked_locals(alloc)?;
    Ok(CheckedNames {
        functions,
        globals,
        locals,
        finding: false,
    })
}

fn parsed(alloc: Global, source: &str) -> Result<Expr, Fail> {
    let tokens = tokens_of(alloc, source)?;
    let (parsed, _) = expr(alloc, &tokens, 0)?;
    Ok(parsed)
}

fn give_types(alloc: Global, expr: &mut Expr) -> Result<(), Fail> {
    let names = checked_names(alloc)?;
    Ok(walk(alloc, &names, &Asked::Whole, expr)?)
}

fn globals(alloc: Global) -> Result<ScopeGlobals, NoMemory> {
    let mut globals = ScopeGlobals::new(alloc);
    let mut number = 0;
    for (name, code) in &GLOBALS {
        let variable = variable(alloc, name, *code)?;
        globals.push(alloc, Numbered { variable, number })?;
        number = behind(number);
    }
    Ok(globals)
}

fn behind(number: u16) -> u16 {
    match number.checked_add(1) {
        Some(behind) => behind,
        None => number,
    }
}

fn locals(alloc: Global) -> Result<ScopeLocals, NoMemory> {
    let mut locals = ScopeLocals::new(alloc);
    let variable = variable(alloc, "x", b'i')?;
    locals.push(
        alloc,
        Numbered {
            variable,
            number: 3,
        },
    )?;
    Ok(locals)
}

fn functions(alloc: Global) -> Result<Callees, NoMemory> {
    let mut callees = Callees::new(alloc);
    let name = text(alloc, "f")?;
    callees.push(alloc, Callee { name, number: 7 })?;
    Ok(callees)
}

fn scope(alloc: Global) -> Result<Scope, NoMemory> {
    let locals = locals(alloc)?;
    let globals = globals(alloc)?;
    let functions = functions(alloc)?;
    Ok(Scope {
        locals,
        globals,
        functions,
    })
}

fn empty(alloc: Global) -> Function {
    Function {
        name: Listed::new(alloc),
        params: Listed::new(alloc),
        locals: Listed::new(alloc),
        ret: Ty::Void,
        code: Listed::new(alloc),
        labels: Listed::new(alloc),
        lines: Listed::new(alloc),
    }
}

fn written(alloc: Global, expr: &Expr) -> Result<Function, NoMemory> {
    let scope = scope(alloc)?;
    let mut function = empty(alloc);
    let mut shape = Shape::new(alloc);
    write_expr(alloc, &scope, expr, &mut shape, &mut function)?;
    Ok(function)
}

fn code_of(alloc: Global, source: &str) -> Result<String, Fail> {
    let mut read = parsed(alloc, source)?;
    give_types(alloc, &mut read)?;
    let function = written(alloc, &read)?;
    shown(alloc, &function)
}

#[test]
fn each_form_has_its_code(rt: HostRuntime) -> Result<(), Fail> {
    for (source, wanted) in &ROWS {
        assert_eq!(rt; code_of(rt.alloc(), source)?.as_str(), *wanted);
    }
    Ok(())
}

/// The code of an expression without names.
fn nameless(alloc: Global, expr: &Expr) -> Result<Function, NoMemory> {
    let names = Names {
        locals: Listed::new(alloc),
        globals: Listed::new(alloc),
        types: Listed::new(alloc),
        functions: Listed::new(alloc),
    };
    let mut function = empty(alloc);
    gen_expr(alloc, expr, &names, &Listed::new(alloc), &mut function)?;
    Ok(function)
}

fn nameless_code_of(alloc: Global, source: &str) -> Result<String, Fail> {
    let mut read = parsed(alloc, source)?;
    give_types(alloc, &mut read)?;
    let function = nameless(alloc, &read)?;
    shown(alloc, &function)
}

#[test]
fn an_expression_without_names(rt: HostRuntime) -> Result<(), Fail> {
    let code = nameless_code_of(rt.alloc(), "1 + 2 * 3")?;
    assert_eq!(rt; code.as_str(), "PushInt(1) PushInt(2) PushInt(3) Mul Add ");
    Ok(())
}
