//! The code of each form of statement.
use crate::made::{code_of, inner};
use std::test::Fail;

/// Statements and their code. `i`, `b`, `t`, `l`, `n` and `m` are the globals 1 to 6: a number, a truth, a text, texts,
/// numbers, and a map of texts. Locals begin at slot 8, and the code at place 14.
const ROWS: [(&str, &str); 36] = [
    (";", ""),
    (
        "{ i = 1; t = 'a' }",
        "PushInt(1) Update(true, 1, [], 0) 'a' Update(true, 3, [], 0) ",
    ),
    ("int x", "PushDefault(Int) StoreGlobal(7) "),
    ("int x = i", "LoadGlobal(1) StoreGlobal(7) "),
    ("x := t", "LoadGlobal(3) StoreGlobal(7) "),
    (
        "{ string[] x; x = l }",
        "PushDefault(List(Text)) Store(8) LoadGlobal(4) Update(false, 8, [], 0) ",
    ),
    (
        "{ int x = i; y := x }",
        "LoadGlobal(1) Store(8) Load(8) Store(9) ",
    ),
    (
        "{ { int x = 1 } int y = 2 }",
        "PushInt(1) Store(8) PushInt(2) Store(9) ",
    ),
    ("n = []", "MakeList(Int, 0) Update(true, 5, [], 0) "),
    ("i += 2", "PushInt(2) Update(true, 1, [], 1) "),
    ("i -= 2", "PushInt(2) Update(true, 1, [], 2) "),
    ("i *= 2", "PushInt(2) Update(true, 1, [], 3) "),
    ("i /= 2", "PushInt(2) Update(true, 1, [], 4) "),
    ("i %= 2", "PushInt(2) Update(true, 1, [], 5) "),
    ("t += i", "LoadGlobal(1) Update(true, 3, [], 1) "),
    ("l += t", "LoadGlobal(3) Update(true, 4, [], 1) "),
    (
        "n[i] = 2",
        "LoadGlobal(1) PushInt(2) Update(true, 5, [false], 0) ",
    ),
    (
        "m{t} += 'a'",
        "LoadGlobal(3) 'a' Update(true, 6, [true], 1) ",
    ),
    (
        "{ int[]{} x; x{t}[i] = 7 }",
        "PushDefault(Map(List(Int))) Store(8) LoadGlobal(3) LoadGlobal(1) PushInt(7) Update(false, 8, [true, false], 0) ",
    ),
    ("i++", "PushInt(1) Update(true, 1, [], 1) "),
    ("++i", "PushInt(1) Update(true, 1, [], 1) "),
    ("i--", "PushInt(1) Update(true, 1, [], 2) "),
    (
        "--n[0]",
        "PushInt(0) PushInt(1) Update(true, 5, [false], 2) ",
    ),
    ("l.add(t)", "LoadGlobal(3) Update(true, 4, [], 6) "),
    ("l.push(t)", "LoadGlobal(3) Update(true, 4, [], 6) "),
    (
        "l.add(0, t)",
        "PushInt(0) LoadGlobal(3) Update(true, 4, [], 7) ",
    ),
    ("l.removeIdx(0)", "PushInt(0) Update(true, 4, [], 8) "),
    ("l.remove(t)", "LoadGlobal(3) Update(true, 4, [], 9) "),
    ("m.remove(t)", "LoadGlobal(3) Update(true, 6, [], 10) "),
    ("t.write('a')", "LoadGlobal(3) 'a' FileWrite "),
    ("t.rm()", "LoadGlobal(3) FileRemove "),
    ("l.size()", "LoadGlobal(4) Method(17) Drop "),
    ("void v() { } v()", "Call(1) "),
    (
        "void v() { } int f(int x) { return x } f(i)",
        "LoadGlobal(1) Call(2) Drop ",
    ),
    ("print i", "LoadGlobal(1) Show Out "),
    ("println t", "LoadGlobal(3) Show '\n' Concat Out "),
];

/// Statements that lead elsewhere, save or wait.
const FLOW: [(&str, &str); 25] = [
    ("println", "'\n' Out "),
    ("error t", "LoadGlobal(3) Stop 16: "),
    ("exit i", "LoadGlobal(1) Exit 16: "),
    ("wait", "WaitAll "),
    ("wait t", "LoadGlobal(3) MakeList(Text, 1) Wait "),
    ("wait l", "LoadGlobal(4) Wait "),
    ("checkpoint", "SaveHere "),
    ("checkpoint t", "LoadGlobal(3) Save "),
    (
        "if (b) i = 1",
        "LoadGlobal(2) JumpUnless(18) PushInt(1) Update(true, 1, [], 0) 18: ",
    ),
    (
        "if (b) { i = 1 } else { i = 2 }",
        "LoadGlobal(2) JumpUnless(19) PushInt(1) Update(true, 1, [], 0) Jump(21) \
            19: PushInt(2) Update(true, 1, [], 0) 21: ",
    ),
    (
        "if (b) { exit 1 } else { exit 2 }",
        "LoadGlobal(2) JumpUnless(19) PushInt(1) Exit 18: Jump(21) 19: PushInt(2) Exit 21: ",
    ),
    (
        "if (b) { int x = 1 } else { int y = 2 }",
        "LoadGlobal(2) JumpUnless(19) PushInt(1) Store(8) Jump(21) 19: PushInt(2) Store(9) 21: ",
    ),
    (
        "while (b) i = 1",
        "14: Tick LoadGlobal(2) JumpUnless(20) PushInt(1) Update(true, 1, [], 0) Jump(14) 20: ",
    ),
    (
        "while (b) break",
        "14: Tick LoadGlobal(2) JumpUnless(19) Jump(19) 18: Jump(14) 19: ",
    ),
    (
        "while (b) continue",
        "14: Tick LoadGlobal(2) JumpUnless(19) Jump(14) 18: Jump(14) 19: ",
    ),
    (
        "for (i = 0; i < 3; i++) b = true",
        "PushInt(0) Update(true, 1, [], 0) 16: Tick LoadGlobal(1) PushInt(3) Less JumpUnless(26) \
            PushBool(true) Update(true, 2, [], 0) 23: PushInt(1) Update(true, 1, [], 1) Jump(16) 26: ",
    ),
    (
        "for (i += 1; b; l.add(t)) { }",
        "PushInt(1) Update(true, 1, [], 1) 16: Tick LoadGlobal(2) JumpUnless(22) \
            19: LoadGlobal(3) Update(true, 4, [], 6) Jump(16) 22: ",
    ),
    (
        "for (k := i; k > 0; k--) { }",
        "LoadGlobal(1) Store(8) 16: Tick Load(8) PushInt(0) Greater JumpUnless(24) \
            21: PushInt(1) Update(false, 8, [], 2) Jump(16) 24: ",
    ),
    (
        "for (int k = 0; ; ) break",
        "PushInt(0) Store(8) 16: Tick PushBool(true) JumpUnless(21) Jump(21) 20: Jump(16) 21: ",
    ),
    (
        "for (;;) continue",
        "14: Tick PushBool(true) JumpUnless(19) Jump(18) 18: Jump(14) 19: ",
    ),
    (
        "for (int x : n) i = x",
        "LoadGlobal(5) Store(8) PushInt(0) Store(9) 18: Tick Load(9) Load(8) Method(17) Less JumpUnless(33) \
            Load(8) Load(9) Item Store(10) Load(10) Update(true, 1, [], 0) \
            30: PushInt(1) Update(false, 9, [], 1) Jump(18) 33: ",
    ),
    (
        "for (int x : n) { if (b) continue; break }",
        "LoadGlobal(5) Store(8) PushInt(0) Store(9) 18: Tick Load(9) Load(8) Method(17) Less JumpUnless(35) \
            Load(8) Load(9) Item Store(10) LoadGlobal(2) JumpUnless(31) Jump(32) 31: Jump(35) \
            32: PushInt(1) Update(false, 9, [], 1) Jump(18) 35: ",
    ),
    ("switch (i) { }", "LoadGlobal(1) Store(8) Jump(17) 17: "),
    (
        "switch (i) { case 1: b = true; default: break }",
        "LoadGlobal(1) Store(8) PushInt(1) Load(8) Equal JumpUnless(21) Jump(22) 21: Jump(24) \
            22: PushBool(true) Update(true, 2, [], 0) 24: Jump(25) 25: ",
    ),
    (
        "while (b) switch (t) { case 'a': continue; case 'b': i = 1 }",
        "14: Tick LoadGlobal(2) JumpUnless(34) LoadGlobal(3) Store(8) 'a' Load(8) Equal JumpUnless(24) Jump(30) \
            24: 'b' Load(8) Equal JumpUnless(29) Jump(31) 29: Jump(33) 30: Jump(14) \
            31: PushInt(1) Update(true, 1, [], 0) 33: Jump(14) 34: ",
    ),
];

#[test]
fn each_statement_has_its_code(rt: HostRuntime) -> Result<(), Fail> {
    for (source, wanted) in &ROWS {
        assert_eq!(rt; inner(code_of(rt.alloc(), source)?.as_str()), *wanted);
    }
    Ok(())
}

#[test]
fn each_loop_has_its_code(rt: HostRuntime) -> Result<(), Fail> {
    for (source, wanted) in &FLOW {
        assert_eq!(rt; inner(code_of(rt.alloc(), source)?.as_str()), *wanted);
    }
    Ok(())
}
