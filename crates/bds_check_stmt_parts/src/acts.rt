//! The walk through tasks and rules.
ghost use Rattle.std.specs.Prelude.{◌≡◌, map};
ghost use Rattle.std.specs.Option.{option_map};
ghost use Rattle.bds_tree.specs.StmtTree as tree;
ghost use Rattle.bds_tree.specs.StmtView.{settings_of};
ghost use Rattle.bds_check_typing.specs.Remade.{option_with};
ghost use Rattle.bds_check_typing.specs.StmtParts as walk;
ghost use Rattle.bds_check_stmt_parts.specs.InPlace.{bare_setting, LeavesActForm};

use crate::commands::check_body;
use crate::settings::walk_settings;
use bds_check_names::Names;
use bds_check_rules::CheckFault;
use bds_tree::{Body, Options};
use std::alloc::Global;

/// A task, whose options get their types.
pub fn walk_task(
    alloc: Global,
    names: &Names,
    options: &mut Option<Options>,
    body: &Body,
) -> Result<(), CheckFault>
    ensures fits { LeavesActForm result (tree.task (option_map settings_of options.new) body.now)
        (walk.judge_task (option_map settings_of options.old) body.now names.now) }
    ensures kept { option_with (map bare_setting) (option_map settings_of options.new) ≡ option_with (map bare_setting)
        (option_map settings_of options.old) }
{
    match options {
        None => check_body(names, body),
        Some(options) => {
            walk_settings(alloc, names, false, options)?;
            check_body(names, body)
        }
    }
}

/// A rule, whose options get their types.
pub fn walk_dep(
    alloc: Global,
    names: &Names,
    options: &mut Options,
    body: &Body,
) -> Result<(), CheckFault>
    ensures fits { LeavesActForm result (tree.dep (settings_of options.new) body.now)
        (walk.judge_dep (settings_of options.old) body.now names.now) }
    ensures kept { map bare_setting (settings_of options.new) ≡ map bare_setting (settings_of options.old) }
{
    walk_settings(alloc, names, true, options)?;
    check_body(names, body)
}
