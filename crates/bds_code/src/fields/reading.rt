//! Parts of functions read from their fields.
ghost use Rattle.std.specs.Prelude.{◌≡◌, length, nat_lt, None, IfOk};
ghost use Rattle.bds_value.specs.Reading.{Reads, ReadsSurely, all_at, many, rising, key_behind, last_key, follows};
ghost use Rattle.bds_value.specs.Reading.{types_at, u32_at, bool_at};
ghost use Rattle.bds_code.specs.UnitReading.{label_of, labels_at, line_at};

use crate::instr::Kinds;
use crate::shape::Shape;
use crate::unit::{Labels, Lines};
use bds_value::{
    At, FieldFault, Input, Listed, MAX_COUNT, NoMemory, Ty, read_bool, read_count, read_types,
    read_u32,
};
use std::alloc::Global;

/// Reads the steps of a path behind their number.
pub(crate) fn read_kinds(alloc: Global, input: &mut Input) -> Result<Kinds, FieldFault>
    ensures read { Reads (all_at bool_at input.old) input.new result }
    ensures kept { input.new.bytes ≡ input.old.bytes }
{
    let count = read_count(input, MAX_COUNT)?;
    read_counted_kinds(alloc, input, count)
}

fn read_counted_kinds(alloc: Global, input: &mut Input, count: u32) -> Result<Kinds, FieldFault>
    ensures read { Reads (many bool_at count input.old) input.new result }
    ensures kept { input.new.bytes ≡ input.old.bytes }
{
    let mut kinds = Listed::new(alloc);
    for _ in 0..count {
        kinds.push(read_bool(input)?)?;
    }
    Ok(kinds)
}

fn read_line(input: &mut Input) -> Result<At, FieldFault>
    ensures read { ReadsSurely (line_at input.old) input.new result }
    ensures kept { input.new.bytes ≡ input.old.bytes }
{
    let file = read_u32(input)?;
    let line = read_u32(input)?;
    Ok(At { file, line })
}

/// Reads so many lines.
pub(crate) fn read_lines(
    alloc: Global,
    input: &mut Input,
    count: usize,
) -> Result<Lines, FieldFault>
    ensures read { Reads (many line_at count input.old) input.new result }
    ensures kept { input.new.bytes ≡ input.old.bytes }
{
    let mut lines = Listed::new(alloc);
    for _ in 0..count {
        lines.push(read_line(input)?)?;
    }
    Ok(lines)
}

/// Reads labels behind their number. Their places rise.
pub(crate) fn read_labels(alloc: Global, input: &mut Input) -> Result<Labels, FieldFault>
    ensures read { Reads (labels_at input.old) input.new result }
    ensures kept { input.new.bytes ≡ input.old.bytes }
{
    let count = read_count(input, MAX_COUNT)?;
    read_counted_labels(alloc, input, count)
}

fn read_counted_labels(alloc: Global, input: &mut Input, count: u32) -> Result<Labels, FieldFault>
    ensures read { Reads (rising nat_lt u32_at label_of None count input.old) input.new result }
    ensures kept { input.new.bytes ≡ input.old.bytes }
{
    let mut labels = Listed::new(alloc);
    for _ in 0..count {
        let place = read_place(input, &labels)?;
        let shape = read_shape(alloc, input, labels.as_slice())?;
        labels.push((place, shape))?;
    }
    Ok(labels)
}

/// Reads the types at a label, which share what they begin with as those of the label before.
fn read_shape(
    alloc: Global,
    input: &mut Input,
    labels: &[(u32, Shape)],
) -> Result<Shape, FieldFault>
    ensures read { Reads (types_at input.old) input.new result }
    ensures kept { input.new.bytes ≡ input.old.bytes }
{
    let types = read_types(alloc, input)?;
    let shape = shape_behind(alloc, labels.last(), types.as_slice())?;
    Ok(shape)
}

/// These types behind those of the last label.
fn shape_behind(alloc: Global, last: Option<&(u32, Shape)>, types: &[Ty]) -> Result<Shape, NoMemory>
    ensures { IfOk result (λ shape. shape ≡ types.now) }
{
    match last {
        Some(label) => label.1.with(alloc, types),
        None => Shape::of(alloc, types),
    }
}

/// Reads a place, which has to come behind that of the last label.
fn read_place(input: &mut Input, labels: &Labels) -> Result<u32, FieldFault>
    ensures read { ReadsSurely (key_behind nat_lt u32_at (last_key labels.now) input.old) input.new result }
    ensures kept { input.new.bytes ≡ input.old.bytes }
{
    let at = input.at;
    let place = read_u32(input)?;
    if !follows(labels, place) {
        return Err(FieldFault::NotRising(at));
    }
    Ok(place)
}

#[tactic(auto, using(bds_value::proofs::ReadLaws::last_key_rules))]
fn follows(labels: &Labels, place: u32) -> bool
    ensures { result ≡ follows nat_lt (last_key labels.now) place }
{
    match labels.as_slice().last() {
        Some(last) => last.0 < place,
        None => true,
    }
}
