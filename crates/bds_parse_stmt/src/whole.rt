//! Whole scripts.

ghost use Rattle.std.specs.Prelude.{◌≡◌, IfOk, List, Option};
ghost use Rattle.bds_tree.specs.declared.token.Token.{Token};
ghost use Rattle.bds_tree.specs.StmtTree.{ScriptTree};
ghost use Rattle.bds_tree.specs.StmtShape.{IsLegal};
ghost use Rattle.bds_tree.specs.StmtSpelling.{SpellsScript};
ghost use Rattle.bds_tree.specs.StmtView.{script_of};
ghost use Rattle.bds_parse_expr.specs.Gives.{Gives};
ghost use Rattle.bds_parse_expr.specs.Longest.{HasLine};
ghost use Rattle.bds_parse_stmt.specs.Script.{Returns};
ghost use Rattle.bds_parse_stmt.specs.Parts.{script_line, script_at};

use crate::parts::parts;
use bds_parse_expr::{ParseFault, line_in};
use bds_parse_stmt_parts::build::here;
use bds_tree::{Script, Token, Tokens};
use bds_value::Listed;
use std::alloc::Global;

fn script_line(tokens: &[Token]) -> u32
    ensures { result ≡ script_line tokens.now }
{
    match tokens {
        [t, ..] => t.line,
        [] => 1,
    }
}

fn read(alloc: Global, tokens: &[Token]) -> Result<Script, ParseFault>
    ensures { Gives script_of result (script_at tokens.now) }
{
    let (parts, _) = parts(alloc, tokens)?;
    let at = here(script_line(tokens));
    let files = Listed::new(alloc);
    Ok(Script { at, files, parts })
}

/// The same, with a fault told on the line of some token.
fn told(tokens: &[Token], read: Result<Script, ParseFault>) -> Result<Script, ParseFault>
    ensures kept { (y : Option ScriptTree) → Gives script_of read y → Gives script_of result y }
    ensures line { HasLine tokens.now result }
{
    match read {
        Ok(script) => Ok(script),
        Err(ParseFault::Syntax(line)) => Err(ParseFault::Syntax(line_in(tokens, line))),
        Err(ParseFault::NoMemory) => Err(ParseFault::NoMemory),
    }
}

/// The script that the tokens spell.
pub fn script(alloc: Global, tokens: &Tokens) -> Result<Script, ParseFault>
    // What is returned is legal and spelled so.
    ensures legal { IfOk result (λ s. IsLegal (script_of s)) }
    ensures spelled { IfOk result (λ s. SpellsScript (script_of s) tokens.now) }
    // Nothing else is, and where there is nothing, that is said.
    ensures only { (t : ScriptTree) → IsLegal t → SpellsScript t tokens.now → Returns t result }
    // The line of a fault is that of a token, or 1 where there is none.
    ensures line { HasLine tokens.now result }
{
    let all = tokens.as_slice();
    told(all, read(alloc, all))
}

/// No two legal scripts are spelled by the same tokens.
pub fn at_most_one()
    ensures { (s t : ScriptTree) (ts : List Token) → IsLegal s → IsLegal t → SpellsScript s ts → SpellsScript t ts → s ≡ t }
{}
