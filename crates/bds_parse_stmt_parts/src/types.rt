//! Written types.

ghost use Rattle.std.specs.Prelude.{◌≡◌, ◌<◌, ◌≤◌, IfOk, IfSome, length, option_map};
ghost use Rattle.bds_parse_expr.specs.Gives.{Gives};
ghost use Rattle.bds_parse_stmt_parts.specs.Types.{wrap, wrapper_at, wrapped, type_at, plain_type, result_at};

use bds_parse_expr::{END, ParseFault};
use bds_tree::{Token, Word};
use bds_value::{NoMemory, Shared, Ty};
use std::alloc::Global;

/// What `[ ]` or `{ }` make of the type before them.
#[derive(Clone, Copy, PartialEq, Eq)]
pub enum Wrapper {
    List,
    Map,
}

fn wrap(alloc: Global, wrapper: Wrapper, inner: Ty) -> Result<Ty, NoMemory>
    ensures { IfOk result (λ t. t ≡ wrap wrapper inner) }
{
    let inner = Shared::of(alloc, inner)?;
    match wrapper {
        Wrapper::List => Ok(Ty::List(inner)),
        Wrapper::Map => Ok(Ty::Map(inner)),
    }
}

fn wrapper_at(tokens: &[Token]) -> Option<(Wrapper, &[Token])>
    ensures is { option_map (λ x. (x.0, x.1.now)) result ≡ wrapper_at tokens.now }
    ensures shorter { IfSome result (λ x. length x.1.now ≤ length tokens.now) }
{
    let [open, close, rest @ ..] = tokens else {
        return None;
    };
    match (&open.word, &close.word) {
        (Word::OpenSquare, Word::CloseSquare) => Some((Wrapper::List, rest)),
        (Word::OpenValue, Word::CloseValue) => Some((Wrapper::Map, rest)),
        _ => None,
    }
}

/// A type with each `[ ]` and `{ }` that stands behind it, which are at most `room`.
fn wrapped<'a>(
    alloc: Global,
    inner: Ty,
    tokens: &'a [Token],
    room: u32,
) -> Result<(Ty, &'a [Token]), ParseFault>
    ensures gives { Gives (λ x. (x.0, x.1.now)) result (wrapped room inner tokens.now) }
    ensures shorter { IfOk result (λ x. length x.1.now ≤ length tokens.now) }
{
    let Some((wrapper, rest)) = wrapper_at(tokens) else {
        return Ok((inner, tokens));
    };
    if room == 0 {
        return Err(ParseFault::Syntax(END));
    }
    let outer = wrap(alloc, wrapper, inner)?;
    wrapped(alloc, outer, rest, room - 1)
}

fn plain_type(word: &Word) -> Option<Ty>
    ensures { result ≡ plain_type word.now }
{
    match word {
        Word::Bool => Some(Ty::Bool),
        Word::Int => Some(Ty::Int),
        Word::String => Some(Ty::Text),
        _ => None,
    }
}

/// A type at the front that nests less than `most`.
pub fn type_at<'a>(
    alloc: Global,
    tokens: &'a [Token],
    most: u32,
) -> Result<(Ty, &'a [Token]), ParseFault>
    ensures gives { Gives (λ x. (x.0, x.1.now)) result (type_at most tokens.now) }
    ensures shorter { IfOk result (λ x. length x.1.now < length tokens.now) }
{
    let [t, rest @ ..] = tokens else {
        return Err(ParseFault::Syntax(END));
    };
    let Some(inner) = plain_type(&t.word) else {
        return Err(ParseFault::Syntax(t.line));
    };
    if most == 0 {
        return Err(ParseFault::Syntax(t.line));
    }
    wrapped(alloc, inner, rest, most - 1)
}

/// The type of a result at the front; it may be `void`.
pub fn result_at<'a>(
    alloc: Global,
    tokens: &'a [Token],
    most: u32,
) -> Result<(Ty, &'a [Token]), ParseFault>
    ensures gives { Gives (λ x. (x.0, x.1.now)) result (result_at most tokens.now) }
    ensures shorter { IfOk result (λ x. length x.1.now < length tokens.now) }
{
    match tokens {
        [t, rest @ ..] if matches!(&t.word, Word::Void) => Ok((Ty::Void, rest)),
        _ => type_at(alloc, tokens, most),
    }
}
