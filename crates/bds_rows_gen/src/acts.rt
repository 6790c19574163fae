//! The code of each form of act.
use crate::made::{code_of, inner};
use std::test::Fail;

/// Acts and their code. `i`, `b`, `t` and `l` are the globals 1 to 4: a number, a truth, a text and texts.
/// Slots 0 to 6 hold what a task is made of: outputs, inputs, cpus, whether it may fail, retries, name, and whether it is needed.
/// The code begins at place 14.
const ROWS: [(&str, &str); 18] = [
    (
        "sys echo $t",
        "'echo ' LoadGlobal(3) Blank Concat Sys Drop ",
    ),
    ("t = sys a", "'a' Sys Update(true, 3, [], 0) "),
    (
        "l[i] = sys a",
        "LoadGlobal(1) 'a' Sys Update(true, 4, [false], 0) ",
    ),
    ("t += sys a", "'a' Sys Update(true, 3, [], 1) "),
    ("string x = sys a", "'a' Sys StoreGlobal(7) "),
    ("goal t", "LoadGlobal(3) MakeList(Text, 1) Goal Drop "),
    ("x := goal l", "LoadGlobal(4) Goal StoreGlobal(7) "),
    (
        "task sys a",
        "PushDefault(List(Text)) Store(0) PushDefault(List(Text)) Store(1) PushInt(1) Store(2) PushBool(false) Store(3) PushInt(0) Store(4) '' Store(5) \
            Load(0) Load(1) Load(2) Load(3) Load(4) Load(5) 'a' NewTask Drop ",
    ),
    (
        "task { sys a\n sys $t\n sys\n }",
        "PushDefault(List(Text)) Store(0) PushDefault(List(Text)) Store(1) PushInt(1) Store(2) PushBool(false) Store(3) PushInt(0) Store(4) '' Store(5) \
            Load(0) Load(1) Load(2) Load(3) Load(4) Load(5) \
            'a' '\n' Concat LoadGlobal(3) Blank Concat '\n' Concat '' Concat NewTask Drop ",
    ),
    (
        "task(taskName := t, cpus := i) sys a",
        "PushDefault(List(Text)) Store(0) PushDefault(List(Text)) Store(1) PushBool(false) Store(3) PushInt(0) Store(4) \
            LoadGlobal(3) Store(5) LoadGlobal(1) Store(2) \
            Load(0) Load(1) Load(2) Load(3) Load(4) Load(5) 'a' NewTask Drop ",
    ),
    (
        "task(canFail := b, retry := 2) sys a",
        "PushDefault(List(Text)) Store(0) PushDefault(List(Text)) Store(1) PushInt(1) Store(2) '' Store(5) \
            LoadGlobal(2) Store(3) PushInt(2) Store(4) \
            Load(0) Load(1) Load(2) Load(3) Load(4) Load(5) 'a' NewTask Drop ",
    ),
    (
        "task(b) sys a",
        "PushDefault(List(Text)) Store(0) PushDefault(List(Text)) Store(1) PushInt(1) Store(2) PushBool(false) Store(3) PushInt(0) Store(4) '' Store(5) \
            PushBool(true) Store(6) LoadGlobal(2) JumpUnless(31) Jump(33) 31: PushBool(false) Store(6) 33: Load(6) JumpUnless(44) \
            Load(0) Load(1) Load(2) Load(3) Load(4) Load(5) 'a' NewTask Jump(45) 44: '' 45:Text Drop ",
    ),
    (
        "task(t <- l) sys a",
        "PushInt(1) Store(2) PushBool(false) Store(3) PushInt(0) Store(4) '' Store(5) \
            PushBool(true) Store(6) LoadGlobal(3) MakeList(Text, 1) Store(0) LoadGlobal(4) Store(1) Load(0) Load(1) OutOfDate \
            JumpUnless(34) Jump(36) 34: PushBool(false) Store(6) 36: Load(6) JumpUnless(47) \
            Load(0) Load(1) Load(2) Load(3) Load(4) Load(5) 'a' NewTask Jump(48) 47: '' 48:Text Drop ",
    ),
    (
        "l[i] = task(b) sys a",
        "LoadGlobal(1) PushDefault(List(Text)) Store(0) PushDefault(List(Text)) Store(1) PushInt(1) Store(2) PushBool(false) Store(3) PushInt(0) Store(4) '' Store(5) \
            PushBool(true) Store(6) LoadGlobal(2) JumpUnless(32) Jump(34) 32:Int PushBool(false) Store(6) 34:Int Load(6) JumpUnless(45) \
            Load(0) Load(1) Load(2) Load(3) Load(4) Load(5) 'a' NewTask Jump(46) 45:Int '' 46:Int,Text Update(true, 4, [false], 0) ",
    ),
    (
        "dep(t <- l) sys a",
        "PushInt(1) Store(2) PushBool(false) Store(3) PushInt(0) Store(4) '' Store(5) \
            LoadGlobal(3) MakeList(Text, 1) Store(0) LoadGlobal(4) Store(1) \
            Load(0) Load(1) Load(2) Load(3) Load(4) Load(5) 'a' Declare ",
    ),
    (
        "dep(cpus := 2, l <- t, taskName := t) { sys a\n sys b\n }",
        "PushBool(false) Store(3) PushInt(0) Store(4) \
            PushInt(2) Store(2) LoadGlobal(4) Store(0) LoadGlobal(3) MakeList(Text, 1) Store(1) LoadGlobal(3) Store(5) \
            Load(0) Load(1) Load(2) Load(3) Load(4) Load(5) 'a' '\n' Concat 'b' Concat Declare ",
    ),
    (
        "int f(int x, string y) { return x } t = par f(i, t)",
        "LoadGlobal(1) LoadGlobal(3) Spawn(1) Update(true, 3, [], 0) ",
    ),
    (
        "{ int x; string y; { bool x; par { } } }",
        "PushDefault(Int) Store(8) PushDefault(Text) Store(9) PushDefault(Bool) Store(10) Load(9) Load(10) Spawn(1) Drop ",
    ),
];

#[test]
fn each_act_has_its_code(rt: HostRuntime) -> Result<(), Fail> {
    for (source, wanted) in &ROWS {
        assert_eq!(rt; inner(code_of(rt.alloc(), source)?.as_str()), *wanted);
    }
    Ok(())
}
