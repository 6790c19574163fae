//! The rows that make lists and maps of operands.
ghost use Rattle.std.specs.Prelude.{◌≡◌, ◌+◌, [], List, cond, is_some, IsSome, Some, IfOk, OnOk};
ghost use Rattle.bds_value.specs.Order.{KeysRise};
ghost use Rattle.bds_value.specs.Path.{at_key, insert_key};
ghost use Rattle.bds_code_frames.specs.Stack.{Stack, stack};
ghost use Rattle.bds_machine_values.specs.Faults.{Answers, Leaves};
ghost use Rattle.bds_machine_values.specs.Literals.{Pairs, list_made, paired, with_pairs, short_map, map_made};
ghost use Rattle.bds_machine_values.specs.Operands.{taken_all};

use crate::faults::{RowFault, fault_of};
use crate::operands::{take_all, take_text};
use crate::values::gives;
use bds_code_frames::Frames;
use bds_value::sharing::{list_of, map_of};
use bds_value::{ByteText, Entries, MAX_ITEMS, NoMemory, Rising, RunFault, Ty, Value, copy_ty};
use std::alloc::Global;

/// A list of so many operands.
pub(crate) fn list_made(
    alloc: Global,
    ty: &Ty,
    count: u32,
    frames: &mut Frames,
) -> Result<(), RowFault>
    requires { IsSome (list_made ty.now count (stack frames.old)) }
    ensures { Leaves (list_made ty.now count (stack frames.old)) (stack frames.new) result }
{
    if count as u64 > MAX_ITEMS {
        return Err(fault_of(alloc, RunFault::TooLong(count as u64)));
    }
    let items = take_all(alloc, frames, count as usize)?;
    let ty = copy_ty(alloc, ty)?;
    let list = list_of(alloc, ty, items)?;
    gives(alloc, list, frames)
}

/// Puts a value at a key, unless one is there.
fn put_missing(made: &mut Entries, key: ByteText, value: Value) -> Result<(), NoMemory>
    ensures pair { OnOk result (made.new ≡ cond (is_some (at_key key made.old)) made.old (insert_key key value made.old)) }
    ensures rise { OnOk result (KeysRise made.new) }
{
    if made.get(&key).is_some() {
        made.rises();
        return Ok(());
    }
    made.insert(key, value)?;
    made.rises();
    Ok(())
}

/// Takes so many keys and values, and makes a map of them from the last pair to the first: a pair
/// counts where no later one has its key.
fn take_pairs(alloc: Global, count: u32, frames: &mut Frames) -> Result<Entries, NoMemory>
    requires { (taken : List Value) × (after : Stack) × (taken_all (count + count) (stack frames.old) ≡ Some (taken, after)) × IsSome (paired taken) }
    ensures { IfOk result (λ made. (taken : List Value) × (ps : Pairs) × (taken_all (count + count) (stack frames.old) ≡ Some (taken, stack frames.new)) × (paired taken ≡ Some ps) × (made ≡ with_pairs [] ps)) }
{
    let mut made = Rising::new(alloc);
    for _ in 0..count {
        let value = frames.take_operand();
        let key = take_text(frames);
        put_missing(&mut made, key, value)?;
    }
    Ok(made)
}

/// A map within the limit.
fn short_map(alloc: Global, ty: &Ty, pairs: Entries) -> Result<Value, RowFault>
    ensures { Answers (short_map ty.now pairs) result }
{
    let count = pairs.len() as u64;
    if count > MAX_ITEMS {
        return Err(fault_of(alloc, RunFault::TooLong(count)));
    }
    Ok(map_of(alloc, copy_ty(alloc, ty)?, pairs)?)
}

/// A map of so many keys and values.
pub(crate) fn map_made(
    alloc: Global,
    ty: &Ty,
    count: u32,
    frames: &mut Frames,
) -> Result<(), RowFault>
    requires { IsSome (map_made ty.now count (stack frames.old)) }
    ensures { Leaves (map_made ty.now count (stack frames.old)) (stack frames.new) result }
{
    let pairs = take_pairs(alloc, count, frames)?;
    let map = short_map(alloc, ty, pairs)?;
    gives(alloc, map, frames)
}
