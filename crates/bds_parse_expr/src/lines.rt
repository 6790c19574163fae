//! The line on which a fault is told.

ghost use Rattle.std.specs.Prelude.{◌≡◌};
ghost use Rattle.bds_tree.specs.ScriptTexts.{has_line, IsLineOf};

use bds_tree::Token;

fn has_line(tokens: &[Token], line: u32) -> bool
    ensures { result ≡ has_line line tokens.now }
{
    for t in tokens {
        if t.line == line {
            return true;
        }
    }
    false
}

/// The line of the last token, or 1 where there is none.
#[tactic(auto, using(crate::proofs::FaultLines::line_rules))]
fn last_line(tokens: &[Token]) -> u32
    ensures { IsLineOf result tokens.now }
{
    match tokens.last() {
        Some(t) => t.line,
        None => 1,
    }
}

/// The line itself where a token stands on it, else that of the last token.
#[tactic(auto, using(crate::proofs::FaultLines::line_rules))]
pub fn line_in(tokens: &[Token], line: u32) -> u32
    ensures { IsLineOf result tokens.now }
{
    if has_line(tokens, line) {
        return line;
    }
    last_line(tokens)
}
