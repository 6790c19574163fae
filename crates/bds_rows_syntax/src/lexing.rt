//! The tokens of texts.
use bds_lex::{LexFault, tokens};
use bds_tree::{Index, KeyName, Piece, Pieces, Token, Tokens, Word};
use bds_value::{ByteText, Listed, MAX_TEXT};
use std::alloc::Global;
use std::test::Fail;

/// Texts, and the tokens or the fault of each. A token shows as what it writes, a block brace as `{|` or `|}`, a text and a `sys`
/// text as the list of its pieces, and a number before `:` is the line of the tokens behind it.
const ROWS: &[(&str, &str)] = &[
    ("", ""),
    ("a\n+ 1", "1: a ; 2: + 1 ;"),
    (
        "l := ['a', 'b']\nm := { 'k' => 'v' }\nprintln \"$l[0] $l[x y] $ $1 $m{'k'}\"",
        "1: l := [ <a> , <b> ] ; 2: m := { <k> => <v> } ; 3: println <$l[0]| |$l|[x y] $ $1 |$m{'k'}> ;",
    ),
    ("println 9223372036854775808", "BigNumber(1)"),
    (
        "println 9223372036854775807",
        "1: println 9223372036854775807 ;",
    ),
    (
        "if (1 < 2)\nprintln 'a'\nelse\nprintln 'b'",
        "1: if ( 1 < 2 ) 2: println <a> 3: else 4: println <b> ;",
    ),
    // blanks, line ends and comments
    ("\t a \r b", "1: a b ;"),
    ("'a\r\r\nb'\r\nc", "1: <a\r\nb> ; 3: c ;"),
    ("# a\n// b\n/* c\n*/ d /* e\n*/ f", "4: d ; 5: f ;"),
    ("/*/", "OpenComment(1)"),
    ("a\n/*/ b\n*/ c /* \n", "OpenComment(3)"),
    ("\u{feff}a", "BadByte(1, 239)"),
    ("a\n&b", "BadByte(2, 38)"),
    // names, numbers and signs
    ("_a1 ifs if sysx 12ab", "1: _a1 ifs if sysx 12 ab ;"),
    (
        "bool int string void true false if else while for break continue return include print println error exit wait checkpoint task dep goal par switch case default real class try catch throw kill breakpoint debug",
        "1: bool int string void true false if else while for break continue return include print println error exit wait checkpoint task dep goal par switch case default real class try catch throw kill breakpoint debug",
    ),
    ("a <-1", "1: a <- 1 ;"),
    ("a---b", "1: a -- - b ;"),
    (
        "< <= > >= = == => ! != && || := :",
        "1: < <= > >= = == => ! != && || := :",
    ),
    (
        "+ += - -= * *= / /= % %= ? . ,",
        "1: + += - -= * *= / /= % %= ? . ,",
    ),
    // texts
    ("'a\\n\"$b\nc' d", "1: <a\\n\"$b\nc> 2: d ;"),
    ("'a", "OpenText(1)"),
    (
        "\"\\b\\t\\n\\f\\r\\\"\\'\\\\\\$a\"",
        "1: <\u{8}\t\n\u{c}\r\"'\\$a> ;",
    ),
    ("\"a\n\\q\"", "BadEscape(1, 113)"),
    ("\"\\q $a[99999999999999999999]\"", "BadEscape(1, 113)"),
    ("\"$a[99999999999999999999] \\q", "BigNumber(1)"),
    ("a\n\"\\q", "BadEscape(2, 113)"),
    ("a\n\"b\\\"", "OpenText(2)"),
    ("\"\"", "1: <> ;"),
    // pieces
    (
        "\"$if$a[b]c$d{e}[0]$f{'g h'}$i{''}\"",
        "1: <$if|$a[b]|c|$d{e}|[0]|$f{'g h'}|$i{''}> ;",
    ),
    (
        "\"$a[01] $b[00] $c[1 $d{1} $e{'\\\"'}\"",
        "1: <$a|[01] |$b|[00] |$c|[1 |$d|{1} |$e|{'\"'}> ;",
    ),
    (
        "sys  cat $a[0] \\\n \\$b \\\\$c # d \t\r\ne",
        "1: sys<cat |$a[0]| \\\n \\$b \\\\$c # d> ; 3: e ;",
    ),
    ("sys", "1: sys<> ;"),
    // kinds of braces
    ("{ a := {} }", "1: {| a := { } ; |}"),
    (
        "else { par { task { } } }",
        "1: else {| par {| task {| |} |} |}",
    ),
    ("f() { ; { a { b {", "1: f ( ) {| ; {| a { b {"),
    ("task(a <- b) {\n}", "1: task ( a <- b ) {| 2: |}"),
    ("} a }", "1: |} a ; |}"),
    // automatic semicolons
    ("(]\na", "1: ( ] 2: a"),
    (
        "f(a\nb)\n[c\n]\n{d\n}",
        "1: f ( a 2: b ) ; 3: [ c 4: ] ; 5: {| d ; 6: |}",
    ),
    ("if (a)\nb", "1: if ( a ) 2: b ;"),
    (
        "while (a)\nfor (b)\nswitch (c)\ndep(d)\ne(f)\ng",
        "1: while ( a ) 2: for ( b ) 3: switch ( c ) 4: dep ( d ) 5: e ( f ) ; 6: g ;",
    ),
    ("f()\n{", "1: f ( ) 2: {|"),
    ("{ a }", "1: {| a ; |}"),
    ("m\n{", "1: m ; 2: {|"),
    ("f();; else", "1: f ( ) ; else"),
    ("f()\n;\nelse", "1: f ( ) ; 3: else"),
    (
        "if (a) while (b) ;; else c()",
        "1: if ( a ) while ( b ) ; else c ( ) ;",
    ),
    ("if (a) {} ; else b()", "1: if ( a ) {| |} else b ( ) ;"),
    (
        "true\nfalse\nbreak\ncontinue\nreturn\nwait\ncheckpoint\nprintln\n++\n--\n1",
        "1: true ; 2: false ; 3: break ; 4: continue ; 5: return ; 6: wait ; 7: checkpoint ; 8: println ; 9: ++ ; 10: -- ; 11: 1 ;",
    ),
];

/// Texts with colons, and their tokens; a case colon shows as `:|`.
const COLONS: &[(&str, &str)] = &[
    (
        "switch (n) {\ncase 1: a\ndefault :\nb }",
        "1: switch ( n ) {| 2: case 1 :| a ; 3: default :| 4: b ; |}",
    ),
    ("case 1: case 2: a", "1: case 1 :| case 2 :| a ;"),
    ("case 1 : : a", "1: case 1 :| : a ;"),
    ("case 1\n: a", "1: case 1 ; 2: : a ;"),
    ("case a; : b", "1: case a ; : b ;"),
    (": default", "1: : default"),
    // choices
    ("case a ? b : c : d", "1: case a ? b : c : d ;"),
    ("case a ? b : d", "1: case a ? b : d ;"),
    ("case (a ? b : c): d", "1: case ( a ? b : c ) :| d ;"),
    ("case [a ? b : c]: d", "1: case [ a ? b : c ] :| d ;"),
    ("default: a ? b : c", "1: default :| a ? b : c ;"),
    // brackets
    (
        "case {'k' => 1}{'k'}: {a: b}",
        "1: case { <k> => 1 } { <k> } :| {| a : b ; |}",
    ),
    ("default {}: a", "1: default { } :| a ;"),
    ("(case a): b", "1: ( case a ) : b ;"),
    ("case (: a", "1: case ( : a"),
    ("case f(default: a", "1: case f ( default :| a"),
    ("[case (1): a]", "1: [ case ( 1 ) :| a ] ;"),
    ("case ): a", "1: case ) :| a ;"),
    ("case }: a", "1: case |} : a ;"),
    ("case (}: a): b", "1: case ( |} : a ) :| b ;"),
    ("case par {}: a", "1: case par {| |} : a ;"),
    ("{ case 1 { a }: b }", "1: {| case 1 { a } :| b ; |}"),
    ("{ case 1 } : a", "1: {| case 1 ; |} : a ;"),
    ("case 1: {}\n{a}", "1: case 1 :| {| |} 2: {| a ; |}"),
];

/// A sign as it is written, with the kinds of braces and colons told apart.
fn sign(word: &Word) -> Option<&'static str> {
    Some(match word {
        Word::OpenRound => "(",
        Word::CloseRound => ")",
        Word::OpenSquare => "[",
        Word::CloseSquare => "]",
        Word::OpenBlock => "{|",
        Word::CloseBlock => "|}",
        Word::OpenValue => "{",
        Word::CloseValue => "}",
        Word::Comma => ",",
        Word::Semicolon => ";",
        Word::Colon => ":",
        Word::CaseColon => ":|",
        Word::Question => "?",
        Word::Dot => ".",
        Word::Plus => "+",
        Word::Minus => "-",
        Word::Star => "*",
        Word::Slash => "/",
        Word::Percent => "%",
        Word::Not => "!",
        Word::Less => "<",
        Word::Greater => ">",
        Word::AtMost => "<=",
        Word::AtLeast => ">=",
        Word::Equal => "==",
        Word::NotEqual => "!=",
        Word::And => "&&",
        Word::Or => "||",
        Word::Assign => "=",
        Word::Declare => ":=",
        Word::AddAssign => "+=",
        Word::SubAssign => "-=",
        Word::MulAssign => "*=",
        Word::DivAssign => "/=",
        Word::RemAssign => "%=",
        Word::Increment => "++",
        Word::Decrement => "--",
        Word::From => "<-",
        Word::Arrow => "=>",
        _ => return None,
    })
}

fn put_text(out: &mut String, text: &ByteText) -> Result<(), Fail> {
    out.push_str(str::from_utf8(text.as_slice())?)?;
    Ok(())
}

fn put_piece(alloc: Global, out: &mut String, piece: &Piece) -> Result<(), Fail> {
    let name = match piece {
        Piece::Plain(text) => return put_text(out, text),
        Piece::Name(name) | Piece::Item(name, _) | Piece::Key(name, _) => name,
    };
    out.push('$')?;
    put_text(out, name)?;
    match piece {
        Piece::Item(_, Index::Number(n)) => out.push_str(format!(in alloc; "[{n}]")?.as_str())?,
        Piece::Item(_, Index::Name(index)) => {
            out.push('[')?;
            put_text(out, index)?;
            out.push(']')?;
        }
        Piece::Key(_, KeyName::Text(key)) => {
            out.push_str("{'")?;
            put_text(out, key)?;
            out.push_str("'}")?;
        }
        Piece::Key(_, KeyName::Name(key)) => {
            out.push('{')?;
            put_text(out, key)?;
            out.push('}')?;
        }
        _ => {}
    }
    Ok(())
}

fn put_pieces(alloc: Global, out: &mut String, pieces: &Pieces) -> Result<(), Fail> {
    let mut between = "<";
    for piece in pieces.as_slice() {
        out.push_str(between)?;
        put_piece(alloc, out, piece)?;
        between = "|";
    }
    if pieces.as_slice().is_empty() {
        out.push('<')?;
    }
    out.push('>')?;
    Ok(())
}

fn put_word(alloc: Global, out: &mut String, word: &Word) -> Result<(), Fail> {
    match word {
        Word::Name(name) => put_text(out, name)?,
        Word::Number(n) => out.push_str(format!(in alloc; "{n}")?.as_str())?,
        Word::Text(pieces) => put_pieces(alloc, out, pieces)?,
        Word::Sys(pieces) => {
            out.push_str("sys")?;
            put_pieces(alloc, out, pieces)?;
        }
        _ => match sign(word) {
            Some(sign) => out.push_str(sign)?,
            None => {
                let mut reserved = format!(in alloc; "{word:?}")?;
                reserved.make_ascii_lowercase();
                out.push_str(reserved.as_str())?;
            }
        },
    }
    Ok(())
}

/// The tokens as the rows show them.
pub fn shown(alloc: Global, tokens: &[Token]) -> Result<String, Fail> {
    let mut out = String::new(alloc);
    let mut line = 0;
    for token in tokens {
        if !out.is_empty() {
            out.push(' ')?;
        }
        if token.line != line {
            line = token.line;
            out.push_str(format!(in alloc; "{line}: ")?.as_str())?;
        }
        put_word(alloc, &mut out, &token.word)?;
    }
    Ok(out)
}

/// The tokens of a text that has some, and is not too long.
pub fn tokens_of(alloc: Global, text: &str) -> Result<Tokens, Fail> {
    let bytes = Listed::from_vec(Vec::from_slice(alloc, text.as_bytes())?);
    if bytes.as_slice().len() as u64 > MAX_TEXT {
        return Ok(Listed::new(alloc));
    }
    Ok(tokens(alloc, &bytes)?)
}

#[test]
fn tells_tokens_and_faults(rt: HostRuntime) -> Result<(), Fail> {
    let alloc = rt.alloc();
    for (text, want) in ROWS {
        let bytes = Listed::from_vec(Vec::from_slice(alloc, text.as_bytes())?);
        assert!(rt; bytes.as_slice().len() as u64 <= MAX_TEXT);
        let found = match tokens(alloc, &bytes) {
            Ok(tokens) => shown(alloc, tokens.as_slice())?,
            Err(fault) => format!(in alloc; "{fault:?}")?,
        };
        assert_eq!(rt; found.as_str(), *want, "at {text:?}");
    }
    Ok(())
}

/// The tokens of a text as the rows show them.
fn shown_of(alloc: Global, text: &str) -> Result<String, Fail> {
    let tokens = tokens_of(alloc, text)?;
    shown(alloc, tokens.as_slice())
}

#[test]
fn tells_case_colons(rt: HostRuntime) -> Result<(), Fail> {
    for (text, want) in COLONS {
        assert_eq!(rt; shown_of(rt.alloc(), text)?.as_str(), *want);
    }
    Ok(())
}

#[test]
fn shows_a_fault(rt: HostRuntime) -> Result<(), Fail> {
    let shown = format!(in rt.alloc(); "{}", LexFault::BadByte(3, 38))?;
    assert_eq!(rt; shown.as_str(), "line 3: bad byte 38");
    Ok(())
}
