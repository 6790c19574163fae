//! Functions, includes, and the parts of a script.

ghost use Rattle.std.specs.Prelude.{◌≡◌, ◌<◌, ◌≤◌, IfOk, IfSome, [], length, map, option_map};
ghost use Rattle.bds_tree.specs.StmtView.{function_of, part_of};
ghost use Rattle.bds_parse_expr.specs.Gives.{Gives};
ghost use Rattle.bds_tree.specs.StmtShape.{is_plain};
ghost use Rattle.bds_parse_stmt_parts.specs.Words.{is_include};
ghost use Rattle.bds_parse_stmt_parts.specs.Reading.{many_onto};
ghost use Rattle.bds_parse_stmt.specs.Parts.{parameter, next_parameter, parameters, function_front, function_rest, all_plain, include_rest, function_or_stmt, next_part};

use bds_parse_expr::{END, ParseFault, line_ahead, name_at};
use bds_parse_stmt_body::{block, statement};
use bds_parse_stmt_parts::build::here;
use bds_parse_stmt_parts::{Sign, behind, result_at, sign_ahead, type_at};
use bds_tree::{
    Function, Include, Parameter, Parameters, Part, Parts, Piece, Pieces, Token, Word, copy_pieces,
};
use bds_value::{ByteText, Listed, MAX_NESTING, Ty, copy_text};
use std::alloc::Global;

fn parameter<'a>(alloc: Global, tokens: &'a [Token]) -> Result<(Parameter, &'a [Token]), ParseFault>
    ensures gives { Gives (λ x. (x.0, x.1.now)) result (parameter tokens.now) }
    ensures shorter { IfOk result (λ x. length x.1.now < length tokens.now) }
{
    let (ty, rest) = type_at(alloc, tokens, MAX_NESTING + 1)?;
    let (name, rest) = name_at(rest)?;
    let name = copy_text(alloc, name)?;
    Ok((Parameter { ty, name }, rest))
}

/// The next parameter, where a comma comes.
fn next_parameter<'a>(
    alloc: Global,
    tokens: &'a [Token],
) -> Result<Option<(Parameter, &'a [Token])>, ParseFault>
    ensures gives { Gives (option_map (λ x. (x.0, x.1.now))) result (next_parameter tokens.now) }
    ensures shorter { IfOk result (λ o. IfSome o (λ x. length x.1.now < length tokens.now)) }
{
    if !sign_ahead(Sign::Comma, tokens) {
        return Ok(None);
    }
    let rest = behind(Sign::Comma, tokens)?;
    Ok(Some(parameter(alloc, rest)?))
}

fn more_parameters<'a>(
    alloc: Global,
    first: Parameters,
    tokens: &'a [Token],
) -> Result<(Parameters, &'a [Token]), ParseFault>
    ensures gives { Gives (λ x. (x.0, x.1.now)) result (many_onto next_parameter first tokens.now) }
    ensures shorter { IfOk result (λ x. length x.1.now ≤ length tokens.now) }
{
    let mut items = first;
    let mut rest = tokens;
    while let Some((item, left)) = next_parameter(alloc, rest)? {
        items.push(item)?;
        rest = left;
    }
    Ok((items, rest))
}

/// Parameters, and the parenthesis that closes them.
fn parameters<'a>(
    alloc: Global,
    tokens: &'a [Token],
) -> Result<(Parameters, &'a [Token]), ParseFault>
    ensures gives { Gives (λ x. (x.0, x.1.now)) result (parameters tokens.now) }
    ensures shorter { IfOk result (λ x. length x.1.now < length tokens.now) }
{
    let mut items = Listed::new(alloc);
    if sign_ahead(Sign::CloseRound, tokens) {
        return Ok((items, behind(Sign::CloseRound, tokens)?));
    }
    let (first, rest) = parameter(alloc, tokens)?;
    items.push(first)?;
    let (items, rest) = more_parameters(alloc, items, rest)?;
    Ok((items, behind(Sign::CloseRound, rest)?))
}

/// `type name (`
fn function_front<'a>(
    alloc: Global,
    tokens: &'a [Token],
) -> Result<(Ty, ByteText, &'a [Token]), ParseFault>
    ensures gives { Gives (λ x. ((x.0, x.1), x.2.now)) result (function_front tokens.now) }
    ensures shorter { IfOk result (λ x. length x.2.now < length tokens.now) }
{
    let (ty, rest) = result_at(alloc, tokens, MAX_NESTING + 1)?;
    let (name, rest) = name_at(rest)?;
    let rest = behind(Sign::OpenRound, rest)?;
    Ok((ty, copy_text(alloc, name)?, rest))
}

fn function_rest<'a>(
    alloc: Global,
    line: u32,
    ty: Ty,
    name: ByteText,
    tokens: &'a [Token],
) -> Result<(Function, &'a [Token]), ParseFault>
    ensures gives { Gives (λ x. (function_of x.0, x.1.now)) result (function_rest line ty name tokens.now) }
    ensures shorter { IfOk result (λ x. length x.1.now < length tokens.now) }
{
    let (parameters, rest) = parameters(alloc, tokens)?;
    let (body, rest) = block(alloc, rest, MAX_NESTING + 1)?;
    let function = Function {
        at: here(line),
        result: ty,
        name,
        parameters,
        body,
    };
    Ok((function, rest))
}

fn is_plain(piece: &Piece) -> bool
    ensures { result ≡ is_plain piece.now }
{
    matches!(piece, Piece::Plain(_))
}

fn all_plain(pieces: &Pieces) -> bool
    ensures { result ≡ all_plain pieces.now }
{
    for piece in pieces.as_slice() {
        if !is_plain(piece) {
            return false;
        }
    }
    true
}

/// An include, behind its first token.
fn include_rest<'a>(
    alloc: Global,
    line: u32,
    tokens: &'a [Token],
) -> Result<(Include, &'a [Token]), ParseFault>
    ensures gives { Gives (λ x. (x.0, x.1.now)) result (include_rest line tokens.now) }
    ensures shorter { IfOk result (λ x. length x.1.now < length tokens.now) }
{
    let [t, rest @ ..] = tokens else {
        return Err(ParseFault::Syntax(END));
    };
    match &t.word {
        Word::Text(pieces) if all_plain(pieces) => {
            let path = copy_pieces(alloc, pieces)?;
            let rest = behind(Sign::Semicolon, rest)?;
            let at = here(line);
            Ok((Include { at, path }, rest))
        }
        _ => Err(ParseFault::Syntax(t.line)),
    }
}

fn is_include(word: &Word) -> bool
    ensures { result ≡ is_include word.now }
{
    matches!(word, Word::Include)
}

/// A function or a statement.
fn function_or_stmt<'a>(
    alloc: Global,
    tokens: &'a [Token],
) -> Result<(Part, &'a [Token]), ParseFault>
    ensures gives { Gives (λ x. (part_of x.0, x.1.now)) result (function_or_stmt tokens.now) }
    ensures shorter { IfOk result (λ x. length x.1.now < length tokens.now) }
{
    match function_front(alloc, tokens) {
        Ok((ty, name, rest)) => {
            let line = line_ahead(tokens);
            let (function, rest) = function_rest(alloc, line, ty, name, rest)?;
            Ok((Part::Function(function), rest))
        }
        Err(ParseFault::NoMemory) => Err(ParseFault::NoMemory),
        Err(ParseFault::Syntax(_)) => {
            let (stmt, rest) = statement(alloc, tokens, MAX_NESTING + 1)?;
            Ok((Part::Stmt(stmt), rest))
        }
    }
}

/// The next part, unless the script ends.
fn next_part<'a>(
    alloc: Global,
    tokens: &'a [Token],
) -> Result<Option<(Part, &'a [Token])>, ParseFault>
    ensures gives { Gives (option_map (λ x. (part_of x.0, x.1.now))) result (next_part tokens.now) }
    ensures shorter { IfOk result (λ o. IfSome o (λ x. length x.1.now < length tokens.now)) }
{
    let [t, rest @ ..] = tokens else {
        return Ok(None);
    };
    if is_include(&t.word) {
        let (include, rest) = include_rest(alloc, t.line, rest)?;
        return Ok(Some((Part::Include(include), rest)));
    }
    Ok(Some(function_or_stmt(alloc, tokens)?))
}

/// All parts of a script.
pub fn parts<'a>(alloc: Global, tokens: &'a [Token]) -> Result<(Parts, &'a [Token]), ParseFault>
    ensures gives { Gives (λ x. (map part_of x.0, x.1.now)) result (many_onto next_part [] tokens.now) }
{
    let mut items = Listed::new(alloc);
    let mut rest = tokens;
    while let Some((item, left)) = next_part(alloc, rest)? {
        items.push(item)?;
        rest = left;
    }
    Ok((items, rest))
}
