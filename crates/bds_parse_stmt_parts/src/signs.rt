//! What stands at the front of the tokens.

ghost use Rattle.std.specs.Prelude.{◌≡◌, ◌<◌, ◌≤◌, IfOk, length};
ghost use Rattle.bds_parse_expr.specs.Gives.{Gives};
ghost use Rattle.bds_parse_expr.specs.Reading.{behind};
ghost use Rattle.bds_parse_stmt_parts.specs.Words.{is_sign, sign_ahead, nothing_ahead, end_ahead, line_end};

use crate::words::{Sign, ends_stmts, is_sign, is_stop};
use bds_parse_expr::{END, ParseFault, line_ahead};
use bds_tree::Token;

pub fn behind(sign: Sign, tokens: &[Token]) -> Result<&[Token], ParseFault>
    ensures gives { Gives (λ x. x.now) result (behind (is_sign sign) tokens.now) }
    ensures shorter { IfOk result (λ x. length x.now < length tokens.now) }
{
    match tokens {
        [t, rest @ ..] if is_sign(sign, &t.word) => Ok(rest),
        [t, ..] => Err(ParseFault::Syntax(t.line)),
        [] => Err(ParseFault::Syntax(END)),
    }
}

pub fn sign_ahead(sign: Sign, tokens: &[Token]) -> bool
    ensures { result ≡ sign_ahead sign tokens.now }
{
    match tokens {
        [t, ..] => is_sign(sign, &t.word),
        [] => false,
    }
}

pub fn nothing_ahead(tokens: &[Token]) -> bool
    ensures { result ≡ nothing_ahead tokens.now }
{
    match tokens {
        [t, ..] => is_stop(&t.word),
        [] => false,
    }
}

/// Whether the statements of a block or of a case end here.
pub fn end_ahead(tokens: &[Token]) -> bool
    ensures { result ≡ end_ahead tokens.now }
{
    match tokens {
        [t, ..] => ends_stmts(&t.word),
        [] => false,
    }
}

/// What stands behind the end of a line: a `;`, unless the last token was a block `}` or an `else` comes next.
pub fn line_end(braced: bool, tokens: &[Token]) -> Result<&[Token], ParseFault>
    ensures gives { Gives (λ x. x.now) result (line_end braced tokens.now) }
    ensures shorter { IfOk result (λ x. length x.now ≤ length tokens.now) }
{
    if braced || sign_ahead(Sign::Else, tokens) {
        return Ok(tokens);
    }
    let rest = behind(Sign::Semicolon, tokens)?;
    if sign_ahead(Sign::Else, rest) {
        return Err(ParseFault::Syntax(line_ahead(rest)));
    }
    Ok(rest)
}
