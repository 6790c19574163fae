//! Tasks and rules: what makes them of the options in their slots.
ghost use Rattle.std.specs.Prelude.{◌≡◌, ◌+◌, ◌∷◌, [], true, OnOk, IfOk};
ghost use Rattle.bds_check_rules.specs.StmtBreaks.{commands_of};
ghost use Rattle.bds_code.specs.declared.instr.Instr.TheVariants as instr;
ghost use Rattle.bds_tree.specs.StmtView.{settings_of};
ghost use Rattle.bds_gen_expr.specs.Gen.{act as one_more};
ghost use Rattle.bds_gen_expr.specs.Marks.{does, written};
ghost use Rattle.bds_gen_stmt.specs.TaskCode.{needed_slot, load_options, further_commands, commands_code, make_code};
ghost use Rattle.bds_gen_stmt_code.specs.GenTasks.{gen_needed, gen_task, gen_rule};

use crate::jumps::{begin_second, end_both};
use crate::options::{slot_of, write_defaults, write_settings};
use bds_check_size::has_condition;
use bds_code::{Function, Instr, Shape};
use bds_gen_expr::{Scope, act, write_pieces};
use bds_tree::{Body as Commands, Command, Setting};
use bds_value::{At, ByteText, Listed, NoMemory, Ty};
use std::alloc::Global;

/// A line end.
pub fn line_end(alloc: Global) -> Result<ByteText, NoMemory>
    ensures { IfOk result (λ t. t ≡ 10 ∷ []) }
{
    let mut text = Listed::new(alloc);
    text.push(b'\n')?;
    Ok(text)
}

/// A command on a line of its own behind others.
#[tactic(auto, using(crate::proofs::Then::then_is))]
fn write_further(
    alloc: Global,
    scope: &Scope,
    at: At,
    command: &Command,
    function: &mut Function,
) -> Result<(), NoMemory>
    ensures { OnOk result (function.new ≡ written function.old (further_commands (command.now ∷ []) scope.now at)) }
{
    let line_end = line_end(alloc)?;
    act(function, at, Instr::PushText(line_end))?;
    act(function, at, Instr::Concat)?;
    write_pieces(alloc, function, command.at, scope, command.text.as_slice())?;
    act(function, at, Instr::Concat)
}

#[tactic(auto, using(crate::proofs::Writing::further_step))]
fn write_rest(
    alloc: Global,
    scope: &Scope,
    at: At,
    commands: &[Command],
    function: &mut Function,
) -> Result<(), NoMemory>
    ensures { OnOk result (function.new ≡ written function.old (further_commands commands.now scope.now at)) }
{
    for command in commands {
        write_further(alloc, scope, at, command, function)?;
    }
    Ok(())
}

/// A command, and those behind it.
#[tactic(auto, using(crate::proofs::Then::then_is))]
fn write_first(
    alloc: Global,
    scope: &Scope,
    at: At,
    command: &Command,
    rest: &[Command],
    function: &mut Function,
) -> Result<(), NoMemory>
    ensures { OnOk result (function.new ≡ written function.old (commands_code (command.now ∷ rest.now) scope.now at)) }
{
    write_pieces(alloc, function, command.at, scope, command.text.as_slice())?;
    write_rest(alloc, scope, at, rest, function)
}

/// Commands behind each other, each on a line.
fn write_commands(
    alloc: Global,
    scope: &Scope,
    at: At,
    commands: &[Command],
    function: &mut Function,
) -> Result<(), NoMemory>
    ensures { OnOk result (function.new ≡ written function.old (commands_code commands.now scope.now at)) }
{
    match commands {
        [] => Ok(()),
        [command, rest @ ..] => write_first(alloc, scope, at, command, rest, function),
    }
}

fn write_body(
    alloc: Global,
    scope: &Scope,
    at: At,
    commands: &Commands,
    function: &mut Function,
) -> Result<(), NoMemory>
    ensures { OnOk result (function.new ≡ written function.old (commands_code (commands_of commands.now) scope.now at)) }
{
    match commands {
        Commands::Sys(command) => {
            write_pieces(alloc, function, command.at, scope, command.text.as_slice())
        }
        Commands::Block(commands) => {
            write_commands(alloc, scope, at, commands.as_slice(), function)
        }
    }
}

fn load(at: At, first: u16, option: u16, function: &mut Function) -> Result<(), NoMemory>
    ensures { OnOk result (function.new ≡ one_more function.old at (instr.Load (first + option))) }
{
    let slot = slot_of(first, option)?;
    act(function, at, Instr::Load(slot))
}

/// The options from their slots.
fn write_loads(at: At, first: u16, function: &mut Function) -> Result<(), NoMemory>
    ensures { OnOk result (function.new ≡ written function.old (load_options at first)) }
{
    act(function, at, Instr::Load(first))?;
    load(at, first, 1, function)?;
    load(at, first, 2, function)?;
    load(at, first, 3, function)?;
    load(at, first, 4, function)?;
    load(at, first, 5, function)
}

/// What makes a task or a rule of the options in their slots.
#[tactic(auto, using(crate::proofs::Then::then_is))]
fn make(
    alloc: Global,
    scope: &Scope,
    at: At,
    first: u16,
    commands: &Commands,
    instr: Instr,
    function: &mut Function,
) -> Result<(), NoMemory>
    ensures { OnOk result (function.new ≡ written function.old (make_code instr commands.now at scope.now first)) }
{
    write_loads(at, first, function)?;
    write_body(alloc, scope, at, commands, function)?;
    act(function, at, instr)
}

/// A task is needed until a condition says otherwise.
fn set_needed(at: At, first: u16, function: &mut Function) -> Result<(), NoMemory>
    ensures { OnOk result (function.new ≡ written function.old (does (instr.PushBool true) at ∷ does (instr.Store (needed_slot first)) at ∷ [])) }
{
    let needed = slot_of(first, 6)?;
    act(function, at, Instr::PushBool(true))?;
    act(function, at, Instr::Store(needed))
}

/// A task that is made only where it is needed.
#[tactic(auto, using(crate::proofs::Wholes::needed_is))]
fn write_needed(
    alloc: Global,
    scope: &Scope,
    at: At,
    first: u16,
    settings: &[Setting],
    commands: &Commands,
    shape: &mut Shape,
    function: &mut Function,
) -> Result<(), NoMemory>
    ensures { OnOk result (function.new ≡ gen_needed (settings_of settings.now) commands.now at scope.now first shape.old function.old) }
{
    set_needed(at, first, function)?;
    write_settings(alloc, scope, false, first, settings, shape, function)?;
    load(at, first, 6, function)?;
    let test = function.code.len();
    act(function, at, Instr::JumpUnless(0))?;
    make(alloc, scope, at, first, commands, Instr::NewTask, function)?;
    let jump = function.code.len();
    begin_second(alloc, function, at, test, shape)?;
    act(function, at, Instr::PushText(Listed::new(alloc)))?;
    end_both(alloc, function, jump, shape, &Ty::Text)
}

/// `task`
pub fn write_task(
    alloc: Global,
    scope: &Scope,
    at: At,
    first: u16,
    settings: &[Setting],
    commands: &Commands,
    shape: &mut Shape,
    function: &mut Function,
) -> Result<(), NoMemory>
    ensures { OnOk result (function.new ≡ gen_task (settings_of settings.now) commands.now at scope.now first shape.old function.old) }
{
    write_defaults(alloc, at, first, settings, function)?;
    if has_condition(settings) {
        return write_needed(alloc, scope, at, first, settings, commands, shape, function);
    }
    write_settings(alloc, scope, false, first, settings, shape, function)?;
    make(alloc, scope, at, first, commands, Instr::NewTask, function)
}

/// `dep`
pub fn write_rule(
    alloc: Global,
    scope: &Scope,
    at: At,
    first: u16,
    settings: &[Setting],
    commands: &Commands,
    shape: &mut Shape,
    function: &mut Function,
) -> Result<(), NoMemory>
    ensures { OnOk result (function.new ≡ gen_rule (settings_of settings.now) commands.now at scope.now first shape.old function.old) }
{
    write_defaults(alloc, at, first, settings, function)?;
    write_settings(alloc, scope, true, first, settings, shape, function)?;
    make(alloc, scope, at, first, commands, Instr::Declare, function)
}
