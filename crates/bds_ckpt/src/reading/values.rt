//! Reading lists of values and of ids.
ghost use Rattle.std.specs.Prelude.{◌≡◌};
ghost use Rattle.bds_value.specs.Reading.{Reads, ReadsSurely, many, value_at};
ghost use Rattle.bds_ckpt.specs.ThreadReading.{values_at, id_of, id_at, ids_at};

use bds_value::{
    FieldFault, Id, Ids, Input, Items, Listed, MAX_COUNT, read_count, read_u8, read_u32, read_value,
};
use std::alloc::Global;

/// Reads values behind their number.
pub(crate) fn read_values(alloc: Global, input: &mut Input) -> Result<Items, FieldFault>
    ensures read { Reads (values_at input.old) input.new result }
    ensures kept { input.new.bytes ≡ input.old.bytes }
{
    let count = read_count(input, MAX_COUNT)?;
    read_counted_values(alloc, input, count)
}

fn read_counted_values(alloc: Global, input: &mut Input, count: u32) -> Result<Items, FieldFault>
    ensures read { Reads (many value_at count input.old) input.new result }
    ensures kept { input.new.bytes ≡ input.old.bytes }
{
    let mut values = Listed::new(alloc);
    for _ in 0..count {
        values.push(read_value(alloc, input)?)?;
    }
    Ok(values)
}

/// Reads a number behind a tag that tells of what it is.
fn read_id(input: &mut Input) -> Result<Id, FieldFault>
    ensures read { ReadsSurely (id_at input.old) input.new result }
    ensures kept { input.new.bytes ≡ input.old.bytes }
{
    let at = input.at;
    let tag = read_u8(input)?;
    read_tagged_id(input, at, tag)
}

fn read_tagged_id(input: &mut Input, at: u64, tag: u8) -> Result<Id, FieldFault>
    ensures read { ReadsSurely (id_of at tag input.old) input.new result }
    ensures kept { input.new.bytes ≡ input.old.bytes }
{
    match tag {
        0 => Ok(Id::Task(read_u32(input)?)),
        1 => Ok(Id::Thread(read_u32(input)?)),
        _ => Err(FieldFault::BadTag(at, tag)),
    }
}

/// Reads ids behind their number.
pub(crate) fn read_ids(alloc: Global, input: &mut Input) -> Result<Ids, FieldFault>
    ensures read { Reads (ids_at input.old) input.new result }
    ensures kept { input.new.bytes ≡ input.old.bytes }
{
    let count = read_count(input, MAX_COUNT)?;
    read_counted_ids(alloc, input, count)
}

fn read_counted_ids(alloc: Global, input: &mut Input, count: u32) -> Result<Ids, FieldFault>
    ensures read { Reads (many id_at count input.old) input.new result }
    ensures kept { input.new.bytes ≡ input.old.bytes }
{
    let mut ids = Listed::new(alloc);
    for _ in 0..count {
        ids.push(read_id(input)?)?;
    }
    Ok(ids)
}
