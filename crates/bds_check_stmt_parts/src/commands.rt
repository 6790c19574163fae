//! The walk through the commands of a body.
ghost use Rattle.std.specs.Prelude.{⊤, [], ◌∷◌};
ghost use Rattle.bds_check_typing.specs.Answers.{Fits};
ghost use Rattle.bds_check_typing.specs.StmtParts as walk;

use bds_check_names::Names;
use bds_check_rules::{CheckFault, sys_rule};
use bds_tree::{Body, Command};

fn check_command(names: &Names, command: &Command) -> Result<(), CheckFault>
    ensures { Fits result (walk.commands_broken (command.now ∷ []) names.now) (λ _. ⊤) }
{
    match sys_rule(names, command.text.as_slice()) {
        Some(rule) => Err(CheckFault::Broken {
            rule,
            at: command.at,
        }),
        None => Ok(()),
    }
}

fn check_commands(names: &Names, commands: &[Command]) -> Result<(), CheckFault>
    ensures { Fits result (walk.commands_broken commands.now names.now) (λ _. ⊤) }
{
    for command in commands {
        if let Some(rule) = sys_rule(names, command.text.as_slice()) {
            return Err(CheckFault::Broken {
                rule,
                at: command.at,
            });
        }
    }
    Ok(())
}

/// The variables in the commands of a body.
pub fn check_body(names: &Names, body: &Body) -> Result<(), CheckFault>
    ensures { Fits result (walk.body_broken body.now names.now) (λ _. ⊤) }
{
    match body {
        Body::Sys(command) => check_command(names, command),
        Body::Block(commands) => check_commands(names, commands.as_slice()),
    }
}
