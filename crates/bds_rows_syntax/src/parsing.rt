//! The tokens of a text as a script, and as tokens again.
use crate::lexing::{shown, tokens_of};
use bds_parse_expr::{ParseFault, expr};
use bds_parse_stmt::script;
use bds_spell::spell;
use bds_tree::{BinaryOp, Expr, Form, Script, Tokens};
use std::alloc::Global;
use std::test::Fail;

/// What a script spells.
fn spelled_of(alloc: Global, script: &Script) -> Result<String, Fail> {
    let tokens = spell(alloc, script)?;
    shown(alloc, tokens.as_slice())
}

/// A text that is read, and then spelled again.
fn spelled(alloc: Global, text: &str) -> Result<String, Fail> {
    let tokens = tokens_of(alloc, text)?;
    let script = script(alloc, &tokens)?;
    spelled_of(alloc, &script)
}

/// `-` for a difference whose first part is one, and `1` for another.
fn first_part(expr: &Expr) -> u8 {
    match &expr.form {
        Form::Binary(left, BinaryOp::Sub, _) => match &left.get().form {
            Form::Binary(_, BinaryOp::Sub, _) => b'-',
            _ => b'1',
        },
        _ => b' ',
    }
}

/// The first part of the expression from a place on, and the place behind it.
fn first_part_at(alloc: Global, text: &str, place: u64) -> Result<(u8, u64), Fail> {
    let tokens = tokens_of(alloc, text)?;
    let (found, behind) = expr(alloc, &tokens, place)?;
    Ok((first_part(&found), behind))
}

/// Scripts whose tokens stand on the lines on which their forms begin, and these tokens.
const SPELLED: [(&str, &str); 8] = [
    ("x = a - b - c\ny = a", "1: x = a - b - c ; 2: y = a ;"),
    ("x = a - (b - c)", "1: x = a - ( b - c ) ;"),
    ("x = ''", "1: x = <> ;"),
    ("{ f() }", "1: {| f ( ) ; |}"),
    (
        "if (a) x = b; else\nf()",
        "1: if ( a ) x = b else 2: f ( ) ;",
    ),
    (
        "if (a)\nif (a) f() else x = b",
        "1: if ( a ) 2: if ( a ) f ( ) else x = b ;",
    ),
    (
        "switch (n) { case 1: f(); default: case (a ? b : c): g(); break }",
        "1: switch ( n ) {| case 1 :| f ( ) ; default :| case ( a ? b : c ) :| g ( ) ; break ; |}",
    ),
    (
        "switch (n) {\ncase 1: if (a) f()\ndefault:\n}",
        "1: switch ( n ) {| 2: case 1 :| if ( a ) f ( ) ; 3: default :| 1: |}",
    ),
];

#[test]
fn scripts_are_spelled_again(rt: HostRuntime) -> Result<(), Fail> {
    for (text, wanted) in &SPELLED {
        assert_eq!(rt; spelled(rt.alloc(), text)?.as_str(), *wanted);
    }
    Ok(())
}

#[test]
fn an_expression_ends_before_the_line(rt: HostRuntime) -> Result<(), Fail> {
    assert_eq!(rt; first_part_at(rt.alloc(), "x = a - b - c", 2)?, (b'-', 7));
    Ok(())
}

fn is_script(alloc: Global, tokens: &Tokens) -> bool {
    script(alloc, tokens).is_ok()
}

/// Takes the end of the last line away; it stands before a closing brace or is the last token.
fn take_line_end(tokens: &mut Tokens, braced: bool) -> Result<(), Fail> {
    let last = tokens.pop();
    if braced {
        let _end = tokens.pop();
        if let Some(brace) = last {
            tokens.push(brace)?;
        }
    }
    Ok(())
}

/// Whether a text is a script, and whether it is one without the end of its last line, which no text lacks.
fn are_scripts(alloc: Global, text: &str, braced: bool) -> Result<(bool, bool), Fail> {
    let mut tokens = tokens_of(alloc, text)?;
    let whole = is_script(alloc, &tokens);
    take_line_end(&mut tokens, braced)?;
    Ok((whole, is_script(alloc, &tokens)))
}

const LINES: [(&str, bool); 4] = [
    ("f()", false),
    ("include 'b'", false),
    ("break", false),
    ("{ f() }", true),
];

/// Texts with a `switch`, and whether each is a script.
const SWITCHES: &[(&str, bool)] = &[
    ("switch (n) {}", true),
    ("switch (n)\n{\n}", true),
    ("switch (n) { default: }", true),
    ("switch (n) { case 1: case 2: ; default: {} }", true),
    ("switch (n) { case 1: f() }", true),
    (
        "switch (n) { case 1: f()\ndefault: g()\ncase 2: h() }",
        true,
    ),
    ("switch (n) { default: f()\ndefault: g() }", true),
    ("switch (n) { case 1: switch (m) { case 2: f() } }", true),
    ("switch (n) { case 1: f() case 2: g() }", false),
    ("switch (n) { f() }", false),
    ("switch (n) { f()\ncase 1: g() }", false),
    ("switch (n) f()", false),
    ("switch n {}", false),
    ("switch (n) { case 1: f()", false),
    ("switch () { default: f() }", false),
    // labels
    ("switch (n) { case (a ? b : c): f() }", true),
    ("switch (n) { case a ? b : c: f() }", false),
    ("switch (n) { case a ? b : f() }", false),
    ("switch (n) { case (a <- b): f() }", true),
    ("switch (n) { case a <- b ? x : y: f() }", false),
    ("switch (n) { case {}: f() }", true),
    ("switch (n) { case {'k' => 1}: f() }", true),
    ("switch (n) { case {'k' => 1}{'k'}: f() }", true),
    ("switch (n) { case {'k': 1}: f() }", false),
    ("switch (n) { case 1 f() }", false),
    ("switch (n) { case 1; f() }", false),
    ("switch (n) { case 1\n: f() }", false),
    ("switch (n) { case 1:: f() }", false),
    ("switch (n) { case: f() }", false),
    ("switch (n) { case sys ls\n: f() }", false),
    ("switch (n) { default 1: f() }", false),
    ("switch (n) { default f() }", false),
    ("switch (n) { default\n: f() }", true),
    ("switch (n) { default:: f() }", false),
    // reserved words
    ("case 1: f()", false),
    ("default: f()", false),
    ("{ case 1: f() }", false),
    ("switch (n) { case 1: { case 2: f() } }", false),
    ("switch (n) { case 1: if (a) case 2: f() }", false),
    ("int default", false),
    ("default = 1", false),
    ("f(default)", false),
    ("a.default()", false),
    ("switch (default) {}", false),
    ("switch (n) { case default: f() }", false),
    // the end of a statement
    ("if (a) switch (n) {} else f()", true),
    ("if (a) switch (n) { case 1: if (b) f() } else g()", true),
    ("switch (n) {} else f()", false),
    ("switch (n) { case 1: f() else g() }", false),
    ("switch (n) { case 1: if (a) f(); else g() }", true),
    ("switch (n) { case 1: if (a) default: f() }", false),
    ("f(); switch (n) {}; g()", true),
];

fn is_text_of_script(alloc: Global, text: &str) -> Result<bool, Fail> {
    let tokens = tokens_of(alloc, text)?;
    Ok(is_script(alloc, &tokens))
}

#[test]
fn switches_have_cases(rt: HostRuntime) -> Result<(), Fail> {
    for (text, want) in SWITCHES {
        assert_eq!(rt; is_text_of_script(rt.alloc(), text)?, *want, "at {text:?}");
    }
    Ok(())
}

/// Whether that many switches within each other, with `;` in the innermost, are a script.
fn is_nested_switch(alloc: Global, depth: u32) -> Result<bool, Fail> {
    let mut text = String::new(alloc);
    for _ in 0..depth {
        text.push_str("switch (n) { case 1: ")?;
    }
    text.push(';')?;
    for _ in 0..depth {
        text.push('}')?;
    }
    is_text_of_script(alloc, text.as_str())
}

#[test]
fn switches_nest_to_the_limit(rt: HostRuntime) -> Result<(), Fail> {
    assert!(rt; is_nested_switch(rt.alloc(), 200)?);
    assert!(rt; !is_nested_switch(rt.alloc(), 201)?);
    Ok(())
}

#[test]
fn lines_have_ends(rt: HostRuntime) -> Result<(), Fail> {
    for (text, braced) in &LINES {
        assert_eq!(rt; are_scripts(rt.alloc(), text, *braced)?, (true, false));
    }
    Ok(())
}

#[test]
fn shows_a_fault(rt: HostRuntime) -> Result<(), Fail> {
    let shown = format!(in rt.alloc(); "{}", ParseFault::Syntax(3))?;
    assert_eq!(rt; shown.as_str(), "line 3: syntax");
    Ok(())
}
