//! Numbers and bools as fields, both ways.
ghost use Rattle.std.specs.Prelude.{◌≡◌, ◌++◌, ◌+◌, ◌<◌, ◌^◌, OnOk, OnErr, IfOk, IfErr};
ghost use Rattle.bds_value.specs.Spelling.{u8_field, bool_field, u16_field, u32_field, u64_field, i64_field};
ghost use Rattle.bds_value.specs.Reading.{ReadsSurely, byte_at, bytes_at, u16_at, u32_at, u64_at, i64_at, bool_of, bool_at, within, count_at, forward};

use crate::faults::FieldFault;
use crate::listed::NoMemory;
use crate::text::put;
use crate::value::Input;

/// Puts a byte at the end. A refused call leaves `out` as it was.
pub fn put_u8(out: &mut Vec<u8>, value: u8) -> Result<(), NoMemory>
    ensures ok { OnOk result (out.new.items ≡ out.old.items ++ u8_field value) }
    ensures err { OnErr result (out.new.items ≡ out.old.items) }
{
    put(out, &[value])
}

/// Puts a truth value at the end. A refused call leaves `out` as it was.
pub fn put_bool(out: &mut Vec<u8>, value: bool) -> Result<(), NoMemory>
    ensures ok { OnOk result (out.new.items ≡ out.old.items ++ bool_field value) }
    ensures err { OnErr result (out.new.items ≡ out.old.items) }
{
    put_u8(out, if value { 1 } else { 0 })
}

/// Puts a number of 16 bits at the end. A refused call leaves `out` as it was.
pub fn put_u16(out: &mut Vec<u8>, value: u16) -> Result<(), NoMemory>
    ensures ok { OnOk result (out.new.items ≡ out.old.items ++ u16_field value) }
    ensures err { OnErr result (out.new.items ≡ out.old.items) }
{
    put(out, &value.to_be_bytes())
}

/// Puts a number of 32 bits at the end. A refused call leaves `out` as it was.
pub fn put_u32(out: &mut Vec<u8>, value: u32) -> Result<(), NoMemory>
    ensures ok { OnOk result (out.new.items ≡ out.old.items ++ u32_field value) }
    ensures err { OnErr result (out.new.items ≡ out.old.items) }
{
    put(out, &value.to_be_bytes())
}

/// Puts a number of 64 bits at the end. A refused call leaves `out` as it was.
pub fn put_u64(out: &mut Vec<u8>, value: u64) -> Result<(), NoMemory>
    ensures ok { OnOk result (out.new.items ≡ out.old.items ++ u64_field value) }
    ensures err { OnErr result (out.new.items ≡ out.old.items) }
{
    put(out, &value.to_be_bytes())
}

/// Puts a signed number of 64 bits at the end. A refused call leaves `out` as it was.
pub fn put_i64(out: &mut Vec<u8>, value: i64) -> Result<(), NoMemory>
    ensures ok { OnOk result (out.new.items ≡ out.old.items ++ i64_field value) }
    ensures err { OnErr result (out.new.items ≡ out.old.items) }
{
    put(out, &value.to_be_bytes())
}

/// Puts a count at the end. A refused call leaves `out` as it was.
pub fn put_count(out: &mut Vec<u8>, count: usize) -> Result<(), NoMemory>
    requires { count < 2 ^ 32 }
    ensures ok { OnOk result (out.new.items ≡ out.old.items ++ u32_field count) }
    ensures err { OnErr result (out.new.items ≡ out.old.items) }
{
    put_u32(out, count as u32)
}

/// Reads a byte.
pub fn read_u8(input: &mut Input) -> Result<u8, FieldFault>
    ensures read { ReadsSurely (byte_at input.old) input.new result }
    ensures kept { input.new.bytes ≡ input.old.bytes }
{
    let bytes = input.bytes.as_slice();
    match bytes.get(input.at as usize) {
        Some(byte) => {
            let byte = *byte;
            input.at += 1;
            Ok(byte)
        }
        None => Err(FieldFault::Short(bytes.len() as u64)),
    }
}

/// Reads a truth value.
pub fn read_bool(input: &mut Input) -> Result<bool, FieldFault>
    ensures read { ReadsSurely (bool_at input.old) input.new result }
    ensures kept { input.new.bytes ≡ input.old.bytes }
{
    let at = input.at;
    match read_u8(input)? {
        0 => Ok(false),
        1 => Ok(true),
        tag => Err(FieldFault::BadTag(at, tag)),
    }
}

/// Lends the next bytes.
pub fn next(input: &Input, count: usize) -> Result<&[u8], FieldFault>
    ensures ok { IfOk result (λ s. bytes_at count input.now ≡ Ok (s.now, forward count input.now)) }
    ensures err { IfErr result (λ fault. bytes_at count input.now ≡ Err fault) }
    ensures fits { IfOk result (λ s. input.now.at + count < 2 ^ 64) }
{
    let bytes = input.bytes.as_slice();
    let at = (input.at as usize).min(bytes.len());
    if bytes.len() - at < count {
        return Err(FieldFault::Short(bytes.len() as u64));
    }
    Ok(&bytes[at..at + count])
}

/// Reads a number of 16 bits.
pub fn read_u16(input: &mut Input) -> Result<u16, FieldFault>
    ensures read { ReadsSurely (u16_at input.old) input.new result }
    ensures kept { input.new.bytes ≡ input.old.bytes }
{
    let b = next(input, 2)?;
    let number = u16::from_be_bytes([b[0], b[1]]);
    input.at += 2;
    Ok(number)
}

/// Reads a number of 32 bits.
pub fn read_u32(input: &mut Input) -> Result<u32, FieldFault>
    ensures read { ReadsSurely (u32_at input.old) input.new result }
    ensures kept { input.new.bytes ≡ input.old.bytes }
{
    let b = next(input, 4)?;
    let number = u32::from_be_bytes([b[0], b[1], b[2], b[3]]);
    input.at += 4;
    Ok(number)
}

/// Reads a number of 64 bits.
pub fn read_u64(input: &mut Input) -> Result<u64, FieldFault>
    ensures read { ReadsSurely (u64_at input.old) input.new result }
    ensures kept { input.new.bytes ≡ input.old.bytes }
{
    let b = next(input, 8)?;
    let number = u64::from_be_bytes([b[0], b[1], b[2], b[3], b[4], b[5], b[6], b[7]]);
    input.at += 8;
    Ok(number)
}

/// Reads a signed number of 64 bits.
pub fn read_i64(input: &mut Input) -> Result<i64, FieldFault>
    ensures read { ReadsSurely (i64_at input.old) input.new result }
    ensures kept { input.new.bytes ≡ input.old.bytes }
{
    let b = next(input, 8)?;
    let number = i64::from_be_bytes([b[0], b[1], b[2], b[3], b[4], b[5], b[6], b[7]]);
    input.at += 8;
    Ok(number)
}

/// Reads a count up to its limit.
pub fn read_count(input: &mut Input, limit: u64) -> Result<u32, FieldFault>
    ensures read { ReadsSurely (count_at limit input.old) input.new result }
    ensures kept { input.new.bytes ≡ input.old.bytes }
{
    let at = input.at;
    let count = read_u32(input)?;
    if count as u64 > limit {
        return Err(FieldFault::BadNumber(at, count as u64));
    }
    Ok(count)
}
