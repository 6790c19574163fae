//! Places.

ghost use Rattle.std.specs.Prelude.{◌≡◌, ◌<◌, ◌≤◌, IfOk, IfSome, [], length, map, option_map};
ghost use Rattle.bds_value.specs.declared.TheConstants.{MAX_NESTING};
ghost use Rattle.bds_tree.specs.StmtView.{suffix_of, place_of};
ghost use Rattle.bds_parse_expr.specs.Gives.{Gives};
ghost use Rattle.bds_parse_stmt_parts.specs.Reading.{next_suffix, many_onto, place};

use crate::build::here;
use crate::signs::behind;
use crate::words::Sign;
use bds_parse_expr::{ParseFault, expression, line_ahead, name_at};
use bds_tree::{Place, Suffix, Suffixes, Token, Word};
use bds_value::{Listed, copy_text};
use std::alloc::Global;

/// The next suffix, where there is one.
fn next_suffix<'a>(
    alloc: Global,
    tokens: &'a [Token],
    most: u32,
) -> Result<Option<(Suffix, &'a [Token])>, ParseFault>
    requires { most ≤ MAX_NESTING }
    ensures gives { Gives (option_map (λ x. (suffix_of x.0, x.1.now))) result (next_suffix most tokens.now) }
    ensures shorter { IfOk result (λ o. IfSome o (λ x. length x.1.now < length tokens.now)) }
{
    let [t, rest @ ..] = tokens else {
        return Ok(None);
    };
    match &t.word {
        Word::OpenSquare => {
            let (index, rest) = expression(alloc, rest, most, 1)?;
            let rest = behind(Sign::CloseSquare, rest)?;
            Ok(Some((Suffix::Item(index.expr), rest)))
        }
        Word::OpenValue => {
            let (key, rest) = expression(alloc, rest, most, 1)?;
            let rest = behind(Sign::CloseValue, rest)?;
            Ok(Some((Suffix::Key(key.expr), rest)))
        }
        _ => Ok(None),
    }
}

fn suffixes<'a>(
    alloc: Global,
    tokens: &'a [Token],
    most: u32,
) -> Result<(Suffixes, &'a [Token]), ParseFault>
    requires { most ≤ MAX_NESTING }
    ensures gives { Gives (λ x. (map suffix_of x.0, x.1.now)) result (many_onto (next_suffix most) [] tokens.now) }
    ensures shorter { IfOk result (λ x. length x.1.now ≤ length tokens.now) }
{
    let mut items = Listed::new(alloc);
    let mut rest = tokens;
    while let Some((item, left)) = next_suffix(alloc, rest, most)? {
        items.push(item)?;
        rest = left;
    }
    Ok((items, rest))
}

/// A place at the front.
pub fn place<'a>(
    alloc: Global,
    tokens: &'a [Token],
    most: u32,
) -> Result<(Place, &'a [Token]), ParseFault>
    requires { most ≤ MAX_NESTING }
    ensures gives { Gives (λ x. (place_of x.0, x.1.now)) result (place most tokens.now) }
    ensures shorter { IfOk result (λ x. length x.1.now < length tokens.now) }
{
    let at = here(line_ahead(tokens));
    let (name, rest) = name_at(tokens)?;
    let name = copy_text(alloc, name)?;
    let (suffixes, rest) = suffixes(alloc, rest, most)?;
    let place = Place { at, name, suffixes };
    Ok((place, rest))
}
