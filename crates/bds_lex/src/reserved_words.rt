//! Names and reserved words.

ghost use Rattle.std.specs.Prelude.{◌≡◌, ◌≤◌, IfOk, List, length, codes, IfSome, Some, Ok};
ghost use Rattle.bds_lex.specs.Sizes.{word_size};
ghost use Rattle.bds_tree.specs.lexing.ReservedWords.{reserved, word_of};
ghost use Rattle.bds_lex.specs.Gives.{Gives};

use bds_tree::Word;
use bds_tree::lexing::Flaw;
use bds_value::{ByteText, Listed};
use std::alloc::Global;

/// The reserved word of a name.
#[tactic(auto, unfolding(bds_tree::specs::lexing::ReservedWords::reserved))]
fn reserved(name: &[u8]) -> Option<Word>
    ensures value { result ≡ reserved name.now }
    ensures fits { IfSome result (λ w. word_size w ≡ 0) }
{
    if name == b"bool".as_slice() {
        return Some(Word::Bool);
    }
    if name == b"int".as_slice() {
        return Some(Word::Int);
    }
    if name == b"string".as_slice() {
        return Some(Word::String);
    }
    if name == b"void".as_slice() {
        return Some(Word::Void);
    }
    if name == b"true".as_slice() {
        return Some(Word::True);
    }
    if name == b"false".as_slice() {
        return Some(Word::False);
    }
    if name == b"if".as_slice() {
        return Some(Word::If);
    }
    if name == b"else".as_slice() {
        return Some(Word::Else);
    }
    if name == b"while".as_slice() {
        return Some(Word::While);
    }
    if name == b"for".as_slice() {
        return Some(Word::For);
    }
    if name == b"break".as_slice() {
        return Some(Word::Break);
    }
    if name == b"continue".as_slice() {
        return Some(Word::Continue);
    }
    if name == b"return".as_slice() {
        return Some(Word::Return);
    }
    if name == b"include".as_slice() {
        return Some(Word::Include);
    }
    if name == b"print".as_slice() {
        return Some(Word::Print);
    }
    if name == b"println".as_slice() {
        return Some(Word::Println);
    }
    if name == b"error".as_slice() {
        return Some(Word::Error);
    }
    if name == b"exit".as_slice() {
        return Some(Word::Exit);
    }
    if name == b"wait".as_slice() {
        return Some(Word::Wait);
    }
    if name == b"checkpoint".as_slice() {
        return Some(Word::Checkpoint);
    }
    if name == b"task".as_slice() {
        return Some(Word::Task);
    }
    if name == b"dep".as_slice() {
        return Some(Word::Dep);
    }
    if name == b"goal".as_slice() {
        return Some(Word::Goal);
    }
    if name == b"par".as_slice() {
        return Some(Word::Par);
    }
    if name == b"switch".as_slice() {
        return Some(Word::Switch);
    }
    if name == b"case".as_slice() {
        return Some(Word::Case);
    }
    if name == b"default".as_slice() {
        return Some(Word::Default);
    }
    if name == b"real".as_slice() {
        return Some(Word::Real);
    }
    if name == b"class".as_slice() {
        return Some(Word::Class);
    }
    if name == b"try".as_slice() {
        return Some(Word::Try);
    }
    if name == b"catch".as_slice() {
        return Some(Word::Catch);
    }
    if name == b"throw".as_slice() {
        return Some(Word::Throw);
    }
    if name == b"kill".as_slice() {
        return Some(Word::Kill);
    }
    if name == b"breakpoint".as_slice() {
        return Some(Word::Breakpoint);
    }
    if name == b"debug".as_slice() {
        return Some(Word::Debug);
    }
    None
}

/// A text of these bytes.
pub fn text_of(alloc: Global, bytes: &[u8]) -> Result<ByteText, Flaw>
    ensures { Gives (λ t. t) result (Ok bytes.now) }
{
    match Vec::from_slice(alloc, bytes) {
        Ok(items) => Ok(Listed::from_vec(items)),
        Err(_) => Err(Flaw::NoMemory),
    }
}

/// The reserved word of a name, or the name.
#[tactic(auto, unfolding(bds_tree::specs::lexing::ReservedWords::word_of))]
pub fn word_of(alloc: Global, name: &[u8]) -> Result<Word, Flaw>
    ensures value { Gives (λ w. w) result (Ok (word_of name.now)) }
    ensures fits { IfOk result (λ w. word_size w ≤ length name.now) }
{
    match reserved(name) {
        Some(word) => Ok(word),
        None => Ok(Word::Name(text_of(alloc, name)?)),
    }
}
