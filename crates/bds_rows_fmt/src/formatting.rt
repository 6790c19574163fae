//! Canonical texts of scripts.
use bds_fmt::{FormatFault, canonical_text, layout};
use bds_lex::tokens;
use bds_tree::Tokens;
use bds_value::{ByteText, Listed, MAX_TEXT};
use std::alloc::Global;
use std::test::Fail;

/// Scripts, and the canonical text of each.
const ROWS: &[(&str, &str)] = &[
    (
        "int   i=1\nif(i<2){println \"a\"}else println 'b'",
        "int i = 1;\nif (i < 2) {\n    println 'a';\n}\nelse println 'b';\n",
    ),
    ("", ""),
    ("x = a - b - c", "x = a - b - c;\n"),
    // a `;` directly before `else`
    ("if(a)while(b);;else;", "if (a) while (b);;\nelse;\n"),
    (
        "if (a) for (;;) ;; else c()",
        "if (a) for (;;);;\nelse c();\n",
    ),
    ("if (a) {} ; else b()", "if (a) {\n}\nelse b();\n"),
    ("if (a) f(); else g()", "if (a) f() else g();\n"),
    ("if (a) sys x\nelse sys y", "if (a) sys x\nelse sys y\n"),
    // the first line, and comments
    ("#!/usr/bin/env bds\nf()", "#!/usr/bin/env bds\nf();\n"),
    ("#!a\r\r\n#!b\nf() // c", "#!a\nf();\n"),
    ("#!a\rb\r", "#!a\rb\r"),
    ("#!", "#!"),
    ("#!\r\n", "#!\n"),
    ("f()\n#!a\n", "f();\n"),
    (" #!a\nf()", "f();\n"),
    ("# a\n/* b\n*/ f() // c\r\n", "f();\n"),
    // texts
    ("s = \"a$$\"", "s = 'a$$';\n"),
    ("s = 'a\\n\"'", "s = 'a\\n\"';\n"),
    ("s = \"it's\"", "s = \"it\\'s\";\n"),
    ("s = ''", "s = '';\n"),
    ("s = \"\"", "s = '';\n"),
    (
        "s = \"\\b\\t\\n\\f\\r\\\"\\'\\\\\\$a\"",
        "s = \"\\b\\t\\n\\f\\r\\\"\\'\\\\\\$a\";\n",
    ),
    ("s = 'a\nb\tc'", "s = \"a\\nb\\tc\";\n"),
    ("s = 'a\u{1}$b\u{7f}'", "s = \"a\u{1}\\$b\u{7f}\";\n"),
    (
        "s = \"$a$b[0]$c[i]$d{'k l'}$e{f}{g} \\$h\"",
        "s = \"$a$b[0]$c[i]$d{'k l'}$e{f}{g} \\$h\";\n",
    ),
    ("s = \"$a[x y] $if'\"", "s = \"$a[x y] $if\\'\";\n"),
    // lines for the shell
    (
        "task {sys  a  \\\n  b $c[0] \\ \n sys\n}",
        "task {\n    sys a  \\\n  b $c[0] \\ \n    sys\n}\n",
    ),
    ("sys a \\", "sys a \\ \n"),
    ("sys", "sys\n"),
    ("par{sys a;b }\n}", "par {\n    sys a;b }\n}\n"),
    // brackets, signs and heads
    (
        "int[ ]{} f(int n,string t){return [{'k'=>[n,2]}]}",
        "int[]{} f(int n, string t) {\n    return [{'k' => [n, 2]}];\n}\n",
    ),
    (
        "for(int i=0;i<n;i++)l[ i ]{'k'} += (- a).trim( ) . length()",
        "for (int i = 0; i < n; i ++) l[i]{'k'} += (- a).trim().length();\n",
    ),
    (
        "task(o<-i,cpus:=2){sys a\nsys b\n}{{wait}}",
        "task (o <- i, cpus := 2) {\n    sys a\n    sys b\n}\n{\n    {\n        wait;\n    }\n}\n",
    ),
    (
        "for(string s:l)if(!s.isEmpty())println s=='a'?1:2\ninclude 'b'",
        "for (string s : l) if (! s.isEmpty()) println s == 'a' ? 1 : 2;\ninclude 'b';\n",
    ),
    // a space stands before the colon of a case, and no line end behind it
    (
        "switch(a){case 1:f();break\ncase 'b':{sys x\n}default:}",
        "switch (a) {\n    case 1 : f();\n    break;\n    case 'b' : {\n        sys x\n    }\n    default : }\n",
    ),
    (
        "switch(a?b:c){case(a?b:c):case{}:default:g()}",
        "switch (a ? b : c) {\n    case (a ? b : c) : case {} : default : g();\n}\n",
    ),
];

fn bytes(alloc: Global, text: &str) -> Result<ByteText, Fail> {
    Ok(Listed::from_vec(Vec::from_slice(alloc, text.as_bytes())?))
}

/// The tokens of a text that has some, and is not too long.
fn tokens_of(alloc: Global, text: &ByteText) -> Result<Tokens, Fail> {
    if text.len() as u64 > MAX_TEXT {
        return Ok(Listed::new(alloc));
    }
    Ok(tokens(alloc, text)?)
}

/// The canonical text of a text that has one.
fn formatted(alloc: Global, text: &ByteText) -> Result<ByteText, Fail> {
    let tokens = tokens_of(alloc, text)?;
    match canonical_text(alloc, text, &tokens) {
        Ok(formatted) => Ok(formatted),
        Err(_) => Ok(Listed::new(alloc)),
    }
}

#[test]
fn scripts_are_formatted(rt: HostRuntime) -> Result<(), Fail> {
    let alloc = rt.alloc();
    for (text, want) in ROWS {
        let found = formatted(alloc, &bytes(alloc, text)?)?;
        assert_eq!(rt; str::from_utf8(found.as_slice())?, *want, "at {text:?}");
    }
    Ok(())
}

#[test]
fn canonical_texts_are_their_own(rt: HostRuntime) -> Result<(), Fail> {
    let alloc = rt.alloc();
    for (_, text) in ROWS {
        let found = formatted(alloc, &bytes(alloc, text)?)?;
        assert_eq!(rt; str::from_utf8(found.as_slice())?, *text);
    }
    Ok(())
}

fn put_many(out: &mut ByteText, byte: u8, times: usize) -> Result<(), Fail> {
    for _time in 0..times {
        out.push(byte)?;
    }
    Ok(())
}

/// Why a text has no canonical text.
fn fault_of(alloc: Global, text: &ByteText) -> Result<Option<FormatFault>, Fail> {
    let tokens = tokens_of(alloc, text)?;
    Ok(canonical_text(alloc, text, &tokens).err())
}

/// A first line of so many bytes, and 41,634 empty statements in 100 blocks. In the canonical text each statement has a line of 402
/// bytes, and the braces have 40,000.
fn in_blocks(alloc: Global, line: usize) -> Result<ByteText, Fail> {
    let mut text = bytes(alloc, "#!")?;
    put_many(&mut text, b'a', line)?;
    put_many(&mut text, b'\n', 1)?;
    put_many(&mut text, b'{', 100)?;
    put_many(&mut text, b';', 41_634)?;
    put_many(&mut text, b'}', 100)?;
    Ok(text)
}

#[test]
fn canonical_text_may_be_as_long_as_a_text(rt: HostRuntime) -> Result<(), Fail> {
    let found = formatted(rt.alloc(), &in_blocks(rt.alloc(), 345)?)?;
    assert_eq!(rt; found.len() as u64, MAX_TEXT);
    Ok(())
}

#[test]
fn longer_one_is_too_long(rt: HostRuntime) -> Result<(), Fail> {
    let fault = fault_of(rt.alloc(), &in_blocks(rt.alloc(), 346)?)?;
    assert_eq!(rt; fault, Some(FormatFault::TooLong));
    Ok(())
}

#[test]
fn tokens_are_laid_out(rt: HostRuntime) -> Result<(), Fail> {
    let alloc = rt.alloc();
    let found = tokens_of(alloc, &bytes(alloc, "x = a - b - c")?)?;
    let text = layout(alloc, &found)?;
    assert_eq!(rt; str::from_utf8(text.as_slice())?, "x = a - b - c;\n");
    Ok(())
}
