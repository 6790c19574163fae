//! Reading one file: the length of its path, the read, the length of its text, its tokens and its tree.

ghost use Rattle.std.specs.Prelude.{◌≡◌, ◌≤◌, ℕ, List, Ok, length};
ghost use Rattle.bds_value.specs.declared.TheConstants.{MAX_TEXT};
ghost use Rattle.bds_tree.specs.Tokens.{tokens_of};
ghost use Rattle.bds_front.specs.OneFile.{lex_fault_of, parse_fault_of, LexesText, ParsesText, AsksText, WasAsked};
ghost use Rattle.bds_front.specs.OneFile.{GivesTokens, KeepsTokens, ReadsText, ReadsTokens, ReadsScript};
ghost use Rattle.bds_host.specs.Host.{Log};

use crate::front_fault::FrontFault;
use bds_host::{Ask, Host, Reply};
use bds_lex::{LexFault, tokens};
use bds_parse_expr::ParseFault;
use bds_parse_stmt::script as parse;
use bds_tree::{Script, Tokens};
use bds_value::{ByteText, MAX_TEXT, NoMemory, copy_text};
use std::alloc::Global;
use std::mem::ManuallyDrop;

/// A text and its tokens.
#[derive(Drop)]
pub struct Lexed {
    pub text: ByteText,
    pub tokens: Tokens,
}

/// How a fault of the lexer is told.
fn lex_fault(path: ByteText, fault: LexFault) -> FrontFault
    ensures { result ≡ lex_fault_of path fault }
{
    match fault {
        LexFault::OpenText(line) => FrontFault::Lex(path, LexFault::OpenText(line)),
        LexFault::OpenComment(line) => FrontFault::Lex(path, LexFault::OpenComment(line)),
        LexFault::BadByte(line, byte) => FrontFault::Lex(path, LexFault::BadByte(line, byte)),
        LexFault::BigNumber(line) => FrontFault::Lex(path, LexFault::BigNumber(line)),
        LexFault::BadEscape(line, byte) => FrontFault::Lex(path, LexFault::BadEscape(line, byte)),
        LexFault::NoMemory => FrontFault::NoMemory,
    }
}

/// How a fault of the parser is told.
fn parse_fault(path: ByteText, fault: ParseFault) -> FrontFault
    ensures { result ≡ parse_fault_of path fault }
{
    match fault {
        ParseFault::Syntax(line) => FrontFault::Parse(path, ParseFault::Syntax(line)),
        ParseFault::NoMemory => FrontFault::NoMemory,
    }
}

/// The script of a path that a text's tokens spell.
#[tactic(auto, using(crate::proofs::Texts::text_rules))]
fn parse_tokens(alloc: Global, path: &ByteText, found: &Tokens) -> Result<Script, FrontFault>
    ensures { (text : List ℕ) → length text ≤ MAX_TEXT → tokens_of text ≡ Ok found.now → ParsesText path.now text result }
{
    match parse(alloc, found) {
        Ok(script) => Ok(script),
        Err(fault) => Err(parse_fault(copy_text(alloc, path)?, fault)),
    }
}

/// The tokens of the text of a path.
#[tactic(auto, using(crate::proofs::Texts::text_rules))]
fn lex_text(alloc: Global, path: &ByteText, text: &ByteText) -> Result<Tokens, FrontFault>
    ensures { LexesText path.now text.now result }
{
    if text.len() as u64 > MAX_TEXT {
        return Err(FrontFault::TooLong(copy_text(alloc, path)?));
    }
    match tokens(alloc, text) {
        Ok(found) => Ok(found),
        Err(fault) => Err(lex_fault(copy_text(alloc, path)?, fault)),
    }
}

/// The script of a path that its text spells.
#[tactic(auto, using(crate::proofs::Texts::text_rules))]
fn parse_text(alloc: Global, path: &ByteText, text: &ByteText) -> Result<Script, FrontFault>
    ensures { ParsesText path.now text.now result }
{
    match lex_text(alloc, path, text) {
        Ok(found) => parse_tokens(alloc, path, &found),
        Err(fault) => Err(fault),
    }
}

/// The tokens of a path, if they spell a script.
#[tactic(auto, using(crate::proofs::Texts::text_rules))]
fn script_tokens(alloc: Global, path: &ByteText, found: Tokens) -> Result<Tokens, FrontFault>
    ensures { KeepsTokens path.now found result }
{
    match parse_tokens(alloc, path, &found) {
        Ok(script) => {
            // it stays in memory: the process ends behind the answer
            let _kept = ManuallyDrop::new(script);
            Ok(found)
        }
        Err(fault) => Err(fault),
    }
}

/// The tokens of the text of a path, if it spells a script.
#[tactic(auto, using(crate::proofs::Texts::text_rules))]
fn text_tokens(alloc: Global, path: &ByteText, text: &ByteText) -> Result<Tokens, FrontFault>
    ensures { GivesTokens path.now text.now result }
{
    match lex_text(alloc, path, text) {
        Ok(found) => script_tokens(alloc, path, found),
        Err(fault) => Err(fault),
    }
}

/// Asks for the text of the file of a path.
fn ask_text<H: Host>(alloc: Global, host: &mut H, path: &ByteText) -> Result<ByteText, FrontFault>
    ensures { AsksText path.now (H.log host.old) (H.log host.new) result }
{
    let asked = copy_text(alloc, path)?;
    let told = copy_text(alloc, path)?;
    match host.ask(alloc, Ask::Read(asked))? {
        Reply::Bytes(text) => Ok(text),
        Reply::Missing => Err(FrontFault::Missing(told)),
        Reply::Fault => Err(FrontFault::Device),
        _ => unreachable!(),
    }
}

/// Reads the file of a path.
#[tactic(auto, using(crate::proofs::Texts::text_rules))]
fn read_text<H: Host>(alloc: Global, host: &mut H, path: &ByteText) -> Result<ByteText, FrontFault>
    ensures { ReadsText path.now (H.log host.old) (H.log host.new) result }
{
    if path.len() as u64 > MAX_TEXT {
        return Err(FrontFault::TooLong(copy_text(alloc, path)?));
    }
    ask_text(alloc, host, path)
}

/// Reads the script of a path.
#[tactic(auto, using(crate::proofs::Texts::text_rules))]
pub fn read_script<H: Host>(
    alloc: Global,
    host: &mut H,
    path: &ByteText,
) -> Result<Script, FrontFault>
    ensures { ReadsScript path.now (H.log host.old) (H.log host.new) result }
{
    let text = read_text(alloc, host, path)?;
    parse_text(alloc, path, &text)
}

/// The text of a path with its tokens, if it spells a script.
#[tactic(auto, using(crate::proofs::Texts::text_rules))]
fn lexed_text(alloc: Global, path: &ByteText, text: ByteText) -> Result<Lexed, FrontFault>
    ensures { (start end : Log) → WasAsked path.now text start end → ReadsTokens path.now start end result }
{
    match text_tokens(alloc, path, &text) {
        Ok(tokens) => Ok(Lexed { text, tokens }),
        Err(fault) => Err(fault),
    }
}

/// Reads the script of a path, and gives its text and its tokens, which spell a script.
#[tactic(auto, using(crate::proofs::Texts::text_rules))]
pub fn read_tokens<H: Host>(
    alloc: Global,
    host: &mut H,
    path: &ByteText,
) -> Result<Lexed, FrontFault>
    ensures { ReadsTokens path.now (H.log host.old) (H.log host.new) result }
{
    match read_text(alloc, host, path) {
        Ok(text) => lexed_text(alloc, path, text),
        Err(fault) => Err(fault),
    }
}
