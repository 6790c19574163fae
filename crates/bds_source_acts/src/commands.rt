//! The terms of the commands of tasks and rules.
ghost use Rattle.std.specs.Prelude.{◌≡◌, ◌∷◌, ◌++◌, [], IfOk, codes, map};
ghost use Rattle.bds_meaning.specs.OpeningActs as acts;
ghost use Rattle.bds_meaning.specs.OpeningTexts as texts;
ghost use Rattle.bds_source_acts.specs.Commands.{further_parts};
ghost use Rattle.bds_source_terms.specs.View.{term_of};

use bds_check_names::Names;
use bds_source_exprs::{line_end, plain, text_term};
use bds_source_terms::{Term, Terms};
use bds_tree::{Body, Command};
use bds_value::{At, Listed, NoMemory};
use std::alloc::Global;

fn command_term(alloc: Global, names: &Names, command: &Command) -> Result<Term, NoMemory>
    ensures { IfOk result (λ t. term_of t ≡ texts.text_term names.now command.now.at command.now.text) }
{
    text_term(alloc, names, command.at, command.text.as_slice())
}

fn put_line_end(alloc: Global, parts: &mut Terms) -> Result<(), NoMemory>
    ensures { IfOk result (λ _. map term_of parts.new ≡ map term_of parts.old ++ texts.plain (codes "\n") ∷ []) }
{
    match line_end(alloc) {
        Ok(end) => parts.push(end),
        Err(fault) => Err(fault),
    }
}

fn put_text(
    alloc: Global,
    names: &Names,
    command: &Command,
    parts: &mut Terms,
) -> Result<(), NoMemory>
    ensures { IfOk result (λ _. map term_of parts.new ≡ map term_of parts.old ++ texts.text_term names.now command.now.at command.now.text ∷ []) }
{
    match command_term(alloc, names, command) {
        Ok(text) => parts.push(text),
        Err(fault) => Err(fault),
    }
}

/// A further command, behind a line end.
fn put_command(
    alloc: Global,
    names: &Names,
    command: &Command,
    parts: &mut Terms,
) -> Result<(), NoMemory>
    ensures { IfOk result (λ _. map term_of parts.new ≡ map term_of parts.old ++ further_parts names.now (command.now ∷ [])) }
{
    put_line_end(alloc, parts)?;
    put_text(alloc, names, command, parts)
}

/// Further commands, in their order.
fn put_further(
    alloc: Global,
    names: &Names,
    commands: &[Command],
    parts: &mut Terms,
) -> Result<(), NoMemory>
    ensures { IfOk result (λ _. map term_of parts.new ≡ map term_of parts.old ++ further_parts names.now commands.now) }
{
    for command in commands {
        put_command(alloc, names, command, parts)?;
    }
    Ok(())
}

fn put_commands(
    alloc: Global,
    names: &Names,
    first: &Command,
    others: &[Command],
    parts: &mut Terms,
) -> Result<(), NoMemory>
    ensures { IfOk result (λ _. map term_of parts.new ≡ map term_of parts.old ++ texts.text_term names.now first.now.at first.now.text ∷ further_parts names.now others.now) }
{
    put_text(alloc, names, first, parts)?;
    put_further(alloc, names, others, parts)
}

/// Parts as one text.
fn text_of(at: At, parts: Terms) -> Term
    ensures { term_of result ≡ texts.text_of_parts at (map term_of parts) }
{
    Term::Joined(at, parts)
}

fn joined_commands(
    alloc: Global,
    names: &Names,
    at: At,
    first: &Command,
    others: &[Command],
) -> Result<Term, NoMemory>
    ensures { IfOk result (λ t. term_of t ≡ acts.commands_term names.now at (first.now ∷ others.now)) }
{
    let mut parts = Listed::new(alloc);
    match put_commands(alloc, names, first, others, &mut parts) {
        Ok(()) => Ok(text_of(at, parts)),
        Err(fault) => Err(fault),
    }
}

fn commands_term(
    alloc: Global,
    names: &Names,
    at: At,
    commands: &[Command],
) -> Result<Term, NoMemory>
    ensures { IfOk result (λ t. term_of t ≡ acts.commands_term names.now at commands.now) }
{
    match commands {
        [] => Ok(plain(Listed::new(alloc))),
        [first, others @ ..] => joined_commands(alloc, names, at, first, others),
    }
}

/// The commands of a task or a rule.
pub fn body_term(alloc: Global, names: &Names, at: At, body: &Body) -> Result<Term, NoMemory>
    ensures { IfOk result (λ t. term_of t ≡ acts.body_term names.now at body.now) }
{
    match body {
        Body::Sys(command) => command_term(alloc, names, command),
        Body::Block(commands) => commands_term(alloc, names, at, commands.as_slice()),
    }
}
