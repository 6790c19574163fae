//! The units of whole scripts: their globals, and each function with its types, slots and code.
use crate::made::made;
use crate::showing::{shown, types_shown};
use bds_code::{Function, Unit};
use std::alloc::Global;
use std::test::Fail;

/// Scripts, the name and value that words behind them set, and the types of their globals with all functions: `NAME(PARAMETERS)RESULT SLOTS: CODE`. Of the slots stand
/// there those behind the eight of tasks.
const ROWS: [(&str, Option<(u8, u8)>, &str); 13] = [
    (
        "",
        None,
        "List(Text) | ()Void : MakeList(Text, 0) StoreGlobal(0) Return ",
    ),
    (
        "println 1 + 2 * 3",
        None,
        "List(Text) | ()Void : MakeList(Text, 0) StoreGlobal(0) PushInt(1) PushInt(2) PushInt(3) Mul Add Show '\n' Concat Out Return ",
    ),
    (
        "void v() { return }",
        None,
        "List(Text) | ()Void : MakeList(Text, 0) StoreGlobal(0) Return | v()Void : Return 1: Return ",
    ),
    (
        "int f(int a, string c) { int d = a; return d + e } e := 3",
        None,
        "List(Text),Int | ()Void : MakeList(Text, 0) StoreGlobal(0) PushInt(3) StoreGlobal(1) Return \
            | f(Int,Text)Int Int: Load(0) Store(10) Load(10) LoadGlobal(1) Add Return 6: PushDefault(Int) Return ",
    ),
    (
        "int f() { return g() } string[] a; int g() { return f() }",
        None,
        "List(Text),List(Text) | ()Void : MakeList(Text, 0) StoreGlobal(0) PushDefault(List(Text)) StoreGlobal(1) Return \
            | f()Int : Call(2) Return 2: PushDefault(Int) Return | g()Int : Call(1) Return 2: PushDefault(Int) Return ",
    ),
    (
        "string f(int a) { return task(cpus := a) sys x\n }",
        None,
        "List(Text) | ()Void : MakeList(Text, 0) StoreGlobal(0) Return \
            | f(Int)Text : PushDefault(List(Text)) Store(1) PushDefault(List(Text)) Store(2) PushBool(false) Store(4) PushInt(0) Store(5) '' Store(6) \
            Load(0) Store(3) Load(1) Load(2) Load(3) Load(4) Load(5) Load(6) 'x' NewTask Return 21: PushDefault(Text) Return ",
    ),
    (
        "for (int x : [1]) { string s }",
        None,
        "List(Text) | ()Void List(Int),Int,Int,Text: MakeList(Text, 0) StoreGlobal(0) PushInt(1) MakeList(Int, 1) Store(8) PushInt(0) Store(9) \
            7: Tick Load(9) Load(8) Method(17) Less JumpUnless(22) Load(8) Load(9) Item Store(10) PushDefault(Text) Store(11) \
            19: PushInt(1) Update(false, 9, [], 1) Jump(7) 22: Return ",
    ),
    (
        "{ int x; par { int y = x; x = 2 } }",
        None,
        "List(Text) | ()Void Int: MakeList(Text, 0) StoreGlobal(0) PushDefault(Int) Store(8) Load(8) Spawn(1) Drop Return \
            | (Int)Void Int: Load(0) Store(9) PushInt(2) Update(false, 0, [], 0) Return ",
    ),
    (
        "void v() { par { } } par { par { println } }",
        None,
        "List(Text) | ()Void : MakeList(Text, 0) StoreGlobal(0) Spawn(3) Drop Return | v()Void : Spawn(4) Drop Return \
            | ()Void : '\n' Out Return | ()Void : Spawn(2) Drop Return | ()Void : Return ",
    ),
    (
        "int n = 2; println n",
        Some((b'n', b'5')),
        "List(Text),Int | ()Void : 'x' MakeList(Text, 1) StoreGlobal(0) PushInt(5) StoreGlobal(1) LoadGlobal(1) Show '\n' Concat Out Return ",
    ),
    (
        "bool b",
        Some((b'b', b'y')),
        "List(Text),Bool | ()Void : 'y' 'x' MakeList(Text, 2) StoreGlobal(0) PushBool(true) StoreGlobal(1) Return ",
    ),
    (
        "l := ['q']",
        Some((b'l', b'y')),
        "List(Text),List(Text) | ()Void : MakeList(Text, 0) StoreGlobal(0) 'y' 'x' MakeList(Text, 2) StoreGlobal(1) Return ",
    ),
    (
        "string t = par { println }",
        Some((b't', b'u')),
        "List(Text),Text | ()Void : 'x' MakeList(Text, 1) StoreGlobal(0) 'u' StoreGlobal(1) Return | ()Void : '\n' Out Return ",
    ),
];

/// The types of the slots of tasks.
const EIGHT: &str = "List(Text),List(Text),Int,Bool,Int,Text,Bool,Text";

/// The types of the other slots.
fn others(slots: &str) -> &str {
    let behind = slots.strip_prefix(EIGHT).unwrap_or("no slots of tasks");
    behind.strip_prefix(",").unwrap_or(behind)
}

fn head_shown(alloc: Global, function: &Function) -> Result<String, Fail> {
    let name = str::from_utf8(function.name.as_slice()).unwrap_or("?");
    let params = types_shown(alloc, function.params.as_slice())?;
    let slots = types_shown(alloc, function.locals.as_slice())?;
    let ret = &function.ret;
    let slots = others(slots.as_str());
    Ok(format!(in alloc; "| {name}({params}){ret:?} {slots}: ")?)
}

fn function_shown(alloc: Global, function: &Function) -> Result<String, Fail> {
    let mut text = head_shown(alloc, function)?;
    let code = shown(alloc, function)?;
    text.push_str(code.as_str())?;
    Ok(text)
}

fn unit_shown(alloc: Global, unit: &Unit) -> Result<String, Fail> {
    let mut text = types_shown(alloc, unit.globals.as_slice())?;
    text.push_str(" ")?;
    for function in unit.functions.as_slice() {
        text.push_str(function_shown(alloc, function)?.as_str())?;
    }
    Ok(text)
}

fn unit_of(alloc: Global, source: &str, words: Option<(u8, u8)>) -> Result<String, Fail> {
    let verified = made(alloc, &[source], words)?;
    unit_shown(alloc, verified.unit())
}

#[test]
fn each_script_has_its_unit(rt: HostRuntime) -> Result<(), Fail> {
    for (source, words, wanted) in &ROWS {
        assert_eq!(rt; unit_of(rt.alloc(), source, *words)?.as_str(), *wanted);
    }
    Ok(())
}
