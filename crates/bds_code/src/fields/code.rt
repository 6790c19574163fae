//! Instructions read from their fields.
ghost use Rattle.std.specs.Prelude.{◌≡◌, ◌≤◌};
ghost use Rattle.bds_value.specs.Reading.{Reads, ReadsSurely, many, list_at};
ghost use Rattle.bds_code.specs.UnitReading.{with_ty, update_at, instr_of, instr_at};

use crate::fields::reading::read_kinds;
use crate::instr::Instr;
use crate::unit::Code;
use bds_value::{
    FieldFault, Input, Listed, MAX_CODE, Ty, read_bool, read_count, read_i64, read_text, read_ty,
    read_u8, read_u16, read_u32,
};
use std::alloc::Global;

/// Reads an instruction: its tag, and its numbers.
pub(crate) fn read_instr(alloc: Global, input: &mut Input) -> Result<Instr, FieldFault>
    ensures read { Reads (instr_at input.old) input.new result }
    ensures kept { input.new.bytes ≡ input.old.bytes }
{
    let at = input.at;
    let tag = read_u8(input)?;
    read_variable(alloc, input, at, tag)
}

/// Reads on behind a tag that stands at a place.
fn read_variable(alloc: Global, input: &mut Input, at: u64, tag: u8) -> Result<Instr, FieldFault>
    ensures read { Reads (instr_of at tag input.old) input.new result }
    ensures kept { input.new.bytes ≡ input.old.bytes }
{
    match tag {
        0 => Ok(Instr::PushBool(read_bool(input)?)),
        1 => Ok(Instr::PushInt(read_i64(input)?)),
        2 => Ok(Instr::PushText(read_text(alloc, input)?)),
        3 => Ok(Instr::PushDefault(read_ty(alloc, input)?)),
        4 => Ok(Instr::Load(read_u16(input)?)),
        5 => Ok(Instr::Store(read_u16(input)?)),
        6 => Ok(Instr::LoadGlobal(read_u16(input)?)),
        7 => Ok(Instr::StoreGlobal(read_u16(input)?)),
        _ => read_operator(alloc, input, at, tag),
    }
}

fn read_operator(alloc: Global, input: &mut Input, at: u64, tag: u8) -> Result<Instr, FieldFault>
    requires { 8 ≤ tag }
    ensures read { Reads (instr_of at tag input.old) input.new result }
    ensures kept { input.new.bytes ≡ input.old.bytes }
{
    match tag {
        8 => Ok(Instr::Drop),
        9 => Ok(Instr::Add),
        10 => Ok(Instr::Sub),
        11 => Ok(Instr::Mul),
        12 => Ok(Instr::Div),
        13 => Ok(Instr::Rem),
        14 => Ok(Instr::Neg),
        15 => Ok(Instr::Not),
        16 => Ok(Instr::Show),
        17 => Ok(Instr::Blank),
        18 => Ok(Instr::Concat),
        19 => Ok(Instr::ListAdd),
        20 => Ok(Instr::ListCat),
        21 => Ok(Instr::Equal),
        22 => Ok(Instr::NotEqual),
        23 => Ok(Instr::Less),
        24 => Ok(Instr::LessEqual),
        25 => Ok(Instr::Greater),
        26 => Ok(Instr::GreaterEqual),
        _ => read_control(alloc, input, at, tag),
    }
}

fn read_control(alloc: Global, input: &mut Input, at: u64, tag: u8) -> Result<Instr, FieldFault>
    requires { 27 ≤ tag }
    ensures read { Reads (instr_of at tag input.old) input.new result }
    ensures kept { input.new.bytes ≡ input.old.bytes }
{
    match tag {
        27 => read_make_list(alloc, input),
        28 => read_make_map(alloc, input),
        29 => Ok(Instr::Item),
        30 => Ok(Instr::Key),
        31 => read_update(alloc, input),
        32 => Ok(Instr::Jump(read_u32(input)?)),
        33 => Ok(Instr::JumpUnless(read_u32(input)?)),
        34 => Ok(Instr::Tick),
        35 => Ok(Instr::Call(read_u32(input)?)),
        36 => Ok(Instr::Return),
        37 => Ok(Instr::Method(read_u8(input)?)),
        _ => read_outside(input, at, tag),
    }
}

fn read_make_list(alloc: Global, input: &mut Input) -> Result<Instr, FieldFault>
    ensures read { Reads (with_ty Instr.MakeList input.old) input.new result }
    ensures kept { input.new.bytes ≡ input.old.bytes }
{
    let ty = read_ty(alloc, input)?;
    let count = read_u32(input)?;
    Ok(Instr::MakeList(ty, count))
}

fn read_make_map(alloc: Global, input: &mut Input) -> Result<Instr, FieldFault>
    ensures read { Reads (with_ty Instr.MakeMap input.old) input.new result }
    ensures kept { input.new.bytes ≡ input.old.bytes }
{
    let ty = read_ty(alloc, input)?;
    let count = read_u32(input)?;
    Ok(Instr::MakeMap(ty, count))
}

fn read_update(alloc: Global, input: &mut Input) -> Result<Instr, FieldFault>
    ensures read { Reads (update_at input.old) input.new result }
    ensures kept { input.new.bytes ≡ input.old.bytes }
{
    let global = read_bool(input)?;
    let slot = read_u16(input)?;
    let kinds = read_kinds(alloc, input)?;
    let what = read_u8(input)?;
    Ok(Instr::Update(global, slot, kinds, what))
}

fn read_outside(input: &mut Input, at: u64, tag: u8) -> Result<Instr, FieldFault>
    requires { 38 ≤ tag }
    ensures read { ReadsSurely (instr_of at tag input.old) input.new result }
    ensures kept { input.new.bytes ≡ input.old.bytes }
{
    match tag {
        38 => Ok(Instr::FileRead),
        39 => Ok(Instr::FileWrite),
        40 => Ok(Instr::FileRemove),
        41 => Ok(Instr::FileStamp(read_u8(input)?)),
        42 => Ok(Instr::Out),
        43 => Ok(Instr::Stop),
        44 => Ok(Instr::Exit),
        45 => Ok(Instr::Sys),
        46 => Ok(Instr::OutOfDate),
        47 => Ok(Instr::NewTask),
        48 => Ok(Instr::Declare),
        49 => Ok(Instr::Goal),
        50 => Ok(Instr::Spawn(read_u32(input)?)),
        51 => Ok(Instr::Wait),
        52 => Ok(Instr::WaitAll),
        53 => Ok(Instr::Save),
        54 => Ok(Instr::SaveHere),
        _ => Err(FieldFault::BadTag(at, tag)),
    }
}

/// Reads instructions behind their number.
pub(crate) fn read_code(alloc: Global, input: &mut Input) -> Result<Code, FieldFault>
    ensures read { Reads (list_at MAX_CODE instr_at input.old) input.new result }
    ensures kept { input.new.bytes ≡ input.old.bytes }
{
    let count = read_count(input, MAX_CODE)?;
    read_counted_code(alloc, input, count)
}

fn read_counted_code(alloc: Global, input: &mut Input, count: u32) -> Result<Code, FieldFault>
    ensures read { Reads (many instr_at count input.old) input.new result }
    ensures kept { input.new.bytes ≡ input.old.bytes }
{
    let mut code = Listed::new(alloc);
    for _ in 0..count {
        code.push(read_instr(alloc, input)?)?;
    }
    Ok(code)
}
