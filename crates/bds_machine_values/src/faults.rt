//! Why a row has no result.
ghost use Rattle.std.specs.Prelude.{◌≡◌, IsSome, Ok, Some, Result};
ghost use Rattle.bds_value.specs.Operators.{OrNoMemory, short_text};
ghost use Rattle.bds_value.specs.declared.value.Value.{out-Value};
ghost use Rattle.bds_value.specs.Path.{fault_at};
ghost use Rattle.bds_value.specs.TextResult.{TextResult};
ghost use Rattle.bds_value.specs.RunFaults.{op_fault, put_fault};
ghost use Rattle.bds_lib.specs.Results.{OrNoMemory as LibOrNoMemory};
ghost use Rattle.bds_lib.specs.RunFaults.{lib_fault};
ghost use Rattle.bds_machine_values.specs.Faults.{Answers, outcome, IsFaultOf};
ghost use Rattle.bds_machine_values.specs.Results.{part_of};
ghost use Rattle.bds_machine_values.specs.declared.faults.RowFault.{RowFault};

use bds_lib::LibFault;
use bds_value::{
    Boxed, ByteText, NoMemory, OpFault, Place, PutFault, RunFault, TextFault, Value, copy_text,
};
use std::alloc::Global;

/// A fault of the run, or want of memory.
#[derive(Debug, Drop)]
pub enum RowFault {
    Fault(Boxed<RunFault>),
    NoMemory,
}

impl From<NoMemory> for RowFault {
    ghost from_gives = { λ _ fault. fault ≡ RowFault.NoMemory };

    fn from(_: NoMemory) -> Self {
        RowFault::NoMemory
    }
}

/// A fault of the run. It is boxed, so that what a row answers is small.
pub fn fault_of(alloc: Global, fault: RunFault) -> RowFault
    ensures { IsFaultOf (Some fault) result }
{
    match Boxed::of(alloc, fault) {
        Ok(boxed) => RowFault::Fault(boxed),
        Err(_) => RowFault::NoMemory,
    }
}

/// The fault of an operator.
pub(crate) fn of_operator(alloc: Global, fault: OpFault) -> RowFault
    ensures { IsFaultOf (op_fault fault) result }
{
    match fault {
        OpFault::ZeroDivisor => fault_of(alloc, RunFault::ZeroDivisor),
        OpFault::TooLong(needed) => fault_of(alloc, RunFault::TooLong(needed)),
        OpFault::NoMemory => RowFault::NoMemory,
    }
}

/// The fault of a place that isn't there.
pub(crate) fn of_place(alloc: Global, fault: PutFault) -> RowFault
    ensures { IsFaultOf (put_fault fault) result }
{
    match fault {
        PutFault::NoIndex(index, length) => fault_of(alloc, RunFault::NoIndex(index, length)),
        PutFault::NoKey(key) => fault_of(alloc, RunFault::NoKey(key)),
        PutFault::TooLong(needed) => fault_of(alloc, RunFault::TooLong(needed)),
        PutFault::NoMemory => RowFault::NoMemory,
    }
}

/// The fault of a method.
pub(crate) fn of_method(alloc: Global, fault: LibFault) -> RowFault
    ensures { IsFaultOf (lib_fault fault) result }
{
    match fault {
        LibFault::NoIndex(index, length) => fault_of(alloc, RunFault::NoIndex(index, length)),
        LibFault::TooLong(needed) => fault_of(alloc, RunFault::TooLong(needed)),
        LibFault::NotANumber(text) => fault_of(alloc, RunFault::NotANumber(text)),
        LibFault::NoMemory => RowFault::NoMemory,
    }
}

/// A text within the limit.
pub(crate) fn text_value(
    alloc: Global,
    made: Result<ByteText, TextFault>,
) -> Result<Value, RowFault>
    ensures { (text : _) → TextResult text made → Answers (outcome op_fault (short_text text)) result }
{
    match made {
        Ok(text) => Ok(Value::Text(text)),
        Err(TextFault::TooLong(needed)) => Err(fault_of(alloc, RunFault::TooLong(needed))),
        Err(TextFault::NoMemory) => Err(RowFault::NoMemory),
    }
}

/// The fault of a key that isn't there.
pub(crate) fn no_key(alloc: Global, key: &ByteText) -> RowFault
    ensures { IsFaultOf (Some (RunFault.NoKey key.now)) result }
{
    match copy_text(alloc, key) {
        Ok(key) => fault_of(alloc, RunFault::NoKey(key)),
        Err(_) => RowFault::NoMemory,
    }
}

fn no_index(alloc: Global, value: &Value, index: i64) -> RowFault
    requires { IsSome (part_of (Place.Index index) value.now) }
    ensures { IsFaultOf (put_fault (fault_at (Place.Index index) (out-Value value.now))) result }
{
    match value {
        Value::List(_, items) => fault_of(
            alloc,
            RunFault::NoIndex(index, items.get().len() as u64),
        ),
        _ => unreachable!(),
    }
}

fn no_entry(alloc: Global, value: &Value, key: ByteText) -> RowFault
    requires { IsSome (part_of (Place.Key key) value.now) }
    ensures { IsFaultOf (put_fault (fault_at (Place.Key key) (out-Value value.now))) result }
{
    match value {
        Value::Map(_, _) => fault_of(alloc, RunFault::NoKey(key)),
        _ => unreachable!(),
    }
}

/// The fault of a step that isn't there.
pub(crate) fn absent(alloc: Global, value: &Value, place: Place) -> RowFault
    requires { IsSome (part_of place value.now) }
    ensures { IsFaultOf (put_fault (fault_at place (out-Value value.now))) result }
{
    match place {
        Place::Index(index) => no_index(alloc, value, index),
        Place::Key(key) => no_entry(alloc, value, key),
    }
}
