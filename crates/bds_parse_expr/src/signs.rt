//! What stands behind a sign, where it is there.

ghost use Rattle.std.specs.Prelude.{◌≡◌, ◌<◌, IfOk, length};
ghost use Rattle.bds_parse_expr.specs.Reading.{behind, closes, is_colon, is_arrow, is_open_round, line_ahead, name_at};
ghost use Rattle.bds_parse_expr.specs.Gives.{Gives};

use crate::fault::{END, ParseFault};
use crate::words::{Close, is_arrow, is_close, is_colon, is_open_round};
use bds_tree::{Token, Word};
use bds_value::ByteText;

pub fn behind_close(close: Close, tokens: &[Token]) -> Result<&[Token], ParseFault>
    ensures gives { Gives (λ x. x.now) result (behind (closes close) tokens.now) }
    ensures shorter { IfOk result (λ x. length x.now < length tokens.now) }
{
    match tokens {
        [t, rest @ ..] if is_close(close, &t.word) => Ok(rest),
        [t, ..] => Err(ParseFault::Syntax(t.line)),
        [] => Err(ParseFault::Syntax(END)),
    }
}

pub fn behind_colon(tokens: &[Token]) -> Result<&[Token], ParseFault>
    ensures gives { Gives (λ x. x.now) result (behind is_colon tokens.now) }
    ensures shorter { IfOk result (λ x. length x.now < length tokens.now) }
{
    match tokens {
        [t, rest @ ..] if is_colon(&t.word) => Ok(rest),
        [t, ..] => Err(ParseFault::Syntax(t.line)),
        [] => Err(ParseFault::Syntax(END)),
    }
}

pub fn behind_arrow(tokens: &[Token]) -> Result<&[Token], ParseFault>
    ensures gives { Gives (λ x. x.now) result (behind is_arrow tokens.now) }
    ensures shorter { IfOk result (λ x. length x.now < length tokens.now) }
{
    match tokens {
        [t, rest @ ..] if is_arrow(&t.word) => Ok(rest),
        [t, ..] => Err(ParseFault::Syntax(t.line)),
        [] => Err(ParseFault::Syntax(END)),
    }
}

pub fn behind_open(tokens: &[Token]) -> Result<&[Token], ParseFault>
    ensures gives { Gives (λ x. x.now) result (behind is_open_round tokens.now) }
    ensures shorter { IfOk result (λ x. length x.now < length tokens.now) }
{
    match tokens {
        [t, rest @ ..] if is_open_round(&t.word) => Ok(rest),
        [t, ..] => Err(ParseFault::Syntax(t.line)),
        [] => Err(ParseFault::Syntax(END)),
    }
}

/// The line of the token at the front.
pub fn line_ahead(tokens: &[Token]) -> u32
    ensures { result ≡ line_ahead tokens.now }
{
    match tokens {
        [t, ..] => t.line,
        [] => END,
    }
}

/// A name at the front, and what stands behind it.
pub fn name_at(tokens: &[Token]) -> Result<(&ByteText, &[Token]), ParseFault>
    ensures gives { Gives (λ x. (x.0.now, x.1.now)) result (name_at tokens.now) }
    ensures shorter { IfOk result (λ x. length x.1.now < length tokens.now) }
{
    let [t, rest @ ..] = tokens else {
        return Err(ParseFault::Syntax(END));
    };
    match &t.word {
        Word::Name(name) => Ok((name, rest)),
        _ => Err(ParseFault::Syntax(t.line)),
    }
}
