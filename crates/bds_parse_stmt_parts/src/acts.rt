//! Options and bodies of tasks and rules.

ghost use Rattle.std.specs.Prelude.{◌≡◌, ◌<◌, ◌≤◌, IfOk, IfSome, [], length, map, option_map};
ghost use Rattle.bds_value.specs.declared.TheConstants.{MAX_NESTING};
ghost use Rattle.bds_tree.specs.StmtView.{setting_of, settings_of};
ghost use Rattle.bds_parse_expr.specs.Gives.{Gives};
ghost use Rattle.bds_parse_stmt_parts.specs.Reading.{setting_name, setting, next_setting, settings, many_onto, command, next_command, body};

use crate::build::here;
use crate::signs::{behind, sign_ahead};
use crate::words::Sign;
use bds_parse_expr::{END, ParseFault, expression, line_ahead};
use bds_tree::{Body, Command, Commands, Options, Setting, SettingForm, Token, Word, copy_pieces};
use bds_value::{ByteText, Listed, copy_text};
use std::alloc::Global;

/// The name before a `:=`, where both are there, and what stands behind.
fn setting_name(tokens: &[Token]) -> Option<(&ByteText, &[Token])>
    ensures is { option_map (λ x. (x.0.now, x.1.now)) result ≡ setting_name tokens.now }
    ensures shorter { IfSome result (λ x. length x.1.now < length tokens.now) }
{
    let [first, second, rest @ ..] = tokens else {
        return None;
    };
    match (&first.word, &second.word) {
        (Word::Name(name), Word::Declare) => Some((name, rest)),
        _ => None,
    }
}

fn setting<'a>(
    alloc: Global,
    tokens: &'a [Token],
    most: u32,
) -> Result<(Setting, &'a [Token]), ParseFault>
    requires { most ≤ MAX_NESTING }
    ensures gives { Gives (λ x. (setting_of x.0, x.1.now)) result (setting most tokens.now) }
    ensures shorter { IfOk result (λ x. length x.1.now < length tokens.now) }
{
    let at = here(line_ahead(tokens));
    match setting_name(tokens) {
        Some((name, rest)) => {
            let name = copy_text(alloc, name)?;
            let (value, rest) = expression(alloc, rest, most, 1)?;
            let form = SettingForm::Named(name, value.expr);
            Ok((Setting { at, form }, rest))
        }
        None => {
            let (value, rest) = expression(alloc, tokens, most, 1)?;
            let form = SettingForm::Plain(value.expr);
            Ok((Setting { at, form }, rest))
        }
    }
}

/// The next option, where a comma comes.
fn next_setting<'a>(
    alloc: Global,
    tokens: &'a [Token],
    most: u32,
) -> Result<Option<(Setting, &'a [Token])>, ParseFault>
    requires { most ≤ MAX_NESTING }
    ensures gives { Gives (option_map (λ x. (setting_of x.0, x.1.now))) result (next_setting most tokens.now) }
    ensures shorter { IfOk result (λ o. IfSome o (λ x. length x.1.now < length tokens.now)) }
{
    if !sign_ahead(Sign::Comma, tokens) {
        return Ok(None);
    }
    let rest = behind(Sign::Comma, tokens)?;
    Ok(Some(setting(alloc, rest, most)?))
}

fn more_settings<'a>(
    alloc: Global,
    first: Options,
    tokens: &'a [Token],
    most: u32,
) -> Result<(Options, &'a [Token]), ParseFault>
    requires { most ≤ MAX_NESTING }
    ensures gives { Gives (λ x. (settings_of x.0, x.1.now)) result (many_onto (next_setting most) (settings_of first) tokens.now) }
    ensures shorter { IfOk result (λ x. length x.1.now ≤ length tokens.now) }
{
    let mut items = first;
    let mut rest = tokens;
    while let Some((item, left)) = next_setting(alloc, rest, most)? {
        items.push(item)?;
        rest = left;
    }
    Ok((items, rest))
}

/// Options in parentheses.
pub fn settings<'a>(
    alloc: Global,
    tokens: &'a [Token],
    most: u32,
) -> Result<(Options, &'a [Token]), ParseFault>
    requires { most ≤ MAX_NESTING }
    ensures gives { Gives (λ x. (settings_of x.0, x.1.now)) result (settings most tokens.now) }
    ensures shorter { IfOk result (λ x. length x.1.now < length tokens.now) }
{
    let mut items = Listed::new(alloc);
    let rest = behind(Sign::OpenRound, tokens)?;
    if sign_ahead(Sign::CloseRound, rest) {
        return Ok((items, behind(Sign::CloseRound, rest)?));
    }
    let (first, rest) = setting(alloc, rest, most)?;
    items.push(first)?;
    let (items, rest) = more_settings(alloc, items, rest, most)?;
    Ok((items, behind(Sign::CloseRound, rest)?))
}

fn command<'a>(alloc: Global, tokens: &'a [Token]) -> Result<(Command, &'a [Token]), ParseFault>
    ensures gives { Gives (λ x. (x.0, x.1.now)) result (command tokens.now) }
    ensures shorter { IfOk result (λ x. length x.1.now < length tokens.now) }
{
    let [t, rest @ ..] = tokens else {
        return Err(ParseFault::Syntax(END));
    };
    match &t.word {
        Word::Sys(pieces) => {
            let text = copy_pieces(alloc, pieces)?;
            let at = here(t.line);
            Ok((Command { at, text }, rest))
        }
        _ => Err(ParseFault::Syntax(t.line)),
    }
}

/// The next command with its `;`, unless the block ends.
fn next_command<'a>(
    alloc: Global,
    tokens: &'a [Token],
) -> Result<Option<(Command, &'a [Token])>, ParseFault>
    ensures gives { Gives (option_map (λ x. (x.0, x.1.now))) result (next_command tokens.now) }
    ensures shorter { IfOk result (λ o. IfSome o (λ x. length x.1.now < length tokens.now)) }
{
    if sign_ahead(Sign::CloseBlock, tokens) {
        return Ok(None);
    }
    let (command, rest) = command(alloc, tokens)?;
    let rest = behind(Sign::Semicolon, rest)?;
    Ok(Some((command, rest)))
}

fn commands<'a>(alloc: Global, tokens: &'a [Token]) -> Result<(Commands, &'a [Token]), ParseFault>
    ensures gives { Gives (λ x. (x.0, x.1.now)) result (many_onto next_command [] tokens.now) }
    ensures shorter { IfOk result (λ x. length x.1.now ≤ length tokens.now) }
{
    let mut items = Listed::new(alloc);
    let mut rest = tokens;
    while let Some((item, left)) = next_command(alloc, rest)? {
        items.push(item)?;
        rest = left;
    }
    Ok((items, rest))
}

/// The commands of a task or a rule.
pub fn body<'a>(alloc: Global, tokens: &'a [Token]) -> Result<(Body, &'a [Token]), ParseFault>
    ensures gives { Gives (λ x. (x.0, x.1.now)) result (body tokens.now) }
    ensures shorter { IfOk result (λ x. length x.1.now < length tokens.now) }
{
    if sign_ahead(Sign::OpenBlock, tokens) {
        let rest = behind(Sign::OpenBlock, tokens)?;
        let (commands, rest) = commands(alloc, rest)?;
        let rest = behind(Sign::CloseBlock, rest)?;
        return Ok((Body::Block(commands), rest));
    }
    let (command, rest) = command(alloc, tokens)?;
    Ok((Body::Sys(command), rest))
}
