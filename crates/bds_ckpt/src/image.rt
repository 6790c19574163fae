//! What a file holds, before it is judged.
use crate::version::Version;
use bds_code::Unit;
use bds_rules::Rules;
use bds_state_threads::Threads;
use bds_tasks::Tasks;
use bds_value::ByteText;
use std::marker::Model;

/// The parts of a state, valid or not: the unit, its threads, tasks and rules, and the path of the
/// script.
#[derive(Drop)]
pub(crate) struct Image {
    pub unit: Unit,
    pub threads: Threads,
    pub tasks: Tasks,
    pub rules: Rules,
    pub path: ByteText,
}

impl Model for Image {
    ghost use Rattle.bds_state.specs.Parts.{Parts};
    ghost use Rattle.std.specs.Coded.{codes};
    ghost use Rattle.bds_code.specs.contracts.unit.Unit as code_unit;
    ghost use Rattle.bds_code_frames.specs.contracts.thread.Thread as thread;
    ghost use Rattle.bds_tasks.specs.contracts.task.Task as task;
    ghost use Rattle.bds_rules.specs.contracts.rule.Rule as rule;

    ghost Value = { Parts };

    ghost coded = { Prim.hlevel (codes, code_unit.the_row.coded, thread.the_row.coded, task.the_row.coded, rule.the_row.coded) };

    ghost view = { λ f. record { unit = f.unit; threads = f.threads; tasks = f.tasks; rules = f.rules; path = f.path } };
}

/// What a file holds, before it is judged: its version, the parts of a state, and the trailer, which
/// is empty in the first version.
#[derive(Drop)]
pub(crate) struct File {
    pub version: Version,
    pub image: Image,
    pub sum: ByteText,
}

impl Model for File {
    ghost use Rattle.bds_ckpt.specs.FileReading.{FileParts};
    ghost use Rattle.std.specs.Coded.{codes};
    ghost use Rattle.bds_ckpt.specs.contracts.version.Version as file_version;
    ghost use Rattle.bds_code.specs.contracts.unit.Unit as code_unit;
    ghost use Rattle.bds_code_frames.specs.contracts.thread.Thread as thread;
    ghost use Rattle.bds_tasks.specs.contracts.task.Task as task;
    ghost use Rattle.bds_rules.specs.contracts.rule.Rule as rule;

    ghost Value = { FileParts };

    ghost coded = { Prim.hlevel (codes, file_version.the_row.coded, code_unit.the_row.coded, thread.the_row.coded, task.the_row.coded, rule.the_row.coded) };

    ghost view = { λ f. record { version = f.version; parts = f.image; sum = f.sum } };
}
