//! Writing a state.
ghost use Rattle.std.specs.Prelude.{◌≡◌, ◌≤◌, ◌++◌, IfOk, OnOk, length};
ghost use Rattle.std.specs.List.{All};
ghost use Rattle.bds_value.specs.declared.TheConstants.{MAX_TEXT, MAX_THREADS};
ghost use Rattle.bds_value.specs.Spelling.{text_field};
ghost use Rattle.bds_code.specs.UnitFields.{IsFieldUnit};
ghost use Rattle.bds_code.specs.UnitSpelling.{unit_field};
ghost use Rattle.bds_tasks.specs.TaskFields.{tasks_field};
ghost use Rattle.bds_rules.specs.RuleFields.{rules_field};
ghost use Rattle.bds_state.specs.StateSpelling.{mark, front2, spells2, threads_field};
ghost use Rattle.bds_ckpt.specs.Short.{IsShort};

use crate::writing::threads::put_threads;
use bds_code::{Thread, Unit, put_unit};
use bds_rules::RuleTable;
use bds_state::State;
use bds_tasks::TaskTable;
use bds_value::{ByteText, Listed, NoMemory, put, put_text_field};
use bds_verify::verified_units_may_be_written;
use sha2::{Digest, Sha256};
use std::alloc::Global;

/// How a file begins: four letters and the version of the format.
const MARK: [u8; 5] = [0x42, 0x44, 0x53, 0x43, 2];

fn put_start(out: &mut Vec<u8>, path: &[u8]) -> Result<(), NoMemory>
    requires { length path.now ≤ MAX_TEXT }
    ensures { OnOk result (out.new.items ≡ out.old.items ++ (mark 2 ++ text_field path.now)) }
{
    put(out, &MARK)?;
    put_text_field(out, path)
}

/// The bytes up to the last thread.
fn first_fields(
    alloc: Global,
    path: &[u8],
    unit: &Unit,
    threads: &[Thread],
) -> Result<Vec<u8>, NoMemory>
    requires path { length path.now ≤ MAX_TEXT }
    requires unit { IsFieldUnit unit.now }
    requires count { length threads.now ≤ MAX_THREADS }
    requires threads { All IsShort threads.now }
    ensures { IfOk result (λ out. out.items ≡ (mark 2 ++ text_field path.now) ++ (unit_field unit.now ++ threads_field threads.now)) }
{
    let mut out = Vec::new(alloc);
    put_start(&mut out, path)?;
    put_unit(&mut out, unit)?;
    put_threads(&mut out, threads)?;
    Ok(out)
}

/// Puts tasks and rules behind them.
fn put_tables(
    alloc: Global,
    bytes: &mut ByteText,
    tasks: &TaskTable,
    rules: &RuleTable,
) -> Result<(), NoMemory>
    ensures { OnOk result (bytes.new ≡ bytes.old ++ (tasks_field tasks.now ++ rules_field rules.now)) }
{
    tasks.write(alloc, bytes)?;
    rules.write(alloc, bytes)
}

/// Gives the bytes of a state up to the trailer.
fn write_front(alloc: Global, state: &State) -> Result<ByteText, NoMemory>
    ensures { IfOk result (λ bytes. bytes ≡ front2 state.now) }
{
    state.is_valid();
    verified_units_may_be_written();
    let first = first_fields(
        alloc,
        state.path.as_slice(),
        state.unit.unit(),
        state.threads.as_slice(),
    )?;
    let mut bytes = Listed::from_vec(first);
    put_tables(alloc, &mut bytes, &state.tasks, &state.rules)?;
    Ok(bytes)
}

/// Gives the bytes of a state, in the second version: those from which it is loaded.
pub fn write(alloc: Global, state: &State) -> Result<ByteText, NoMemory>
    ensures { IfOk result (λ bytes. bytes ≡ spells2 state.now) }
{
    let mut bytes = write_front(alloc, state)?;
    let sum = Sha256::digest(bytes.as_slice());
    bytes.append(sum.as_slice())?;
    Ok(bytes)
}
