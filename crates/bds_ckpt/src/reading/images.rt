//! Reading a whole file.
ghost use Rattle.std.specs.Prelude.{◌≡◌, ◌<◌, IfOk};
ghost use Rattle.bds_value.specs.Reading.{Reads, ReadsSurely, bytes_at};
ghost use Rattle.bds_ckpt.specs.FileReading.{byte_is, bytes_are, version_byte_at, version_at, fields_at, sum_at, file_at, spell_file};
ghost use Rattle.bds_state.specs.StateSpelling.{letters};
ghost use Rattle.bds_value.specs.Fields.{Stretch};
ghost use Rattle.bds_ckpt.specs.Loading.{IsFieldFile};

use crate::image::{File, Image};
use crate::reading::threads::read_threads;
use crate::version::Version;
use bds_code::read_unit;
use bds_rules::read_rules;
use bds_tasks::read_tasks;
use bds_value::{ByteText, FieldFault, Input, Listed, are_bytes, read_text, read_u8};
use std::alloc::Global;

/// Reads a byte, which has to be this one.
fn read_given(input: &mut Input, wanted: u8) -> Result<(), FieldFault>
    ensures read { ReadsSurely (byte_is wanted input.old) input.new result }
    ensures kept { input.new.bytes ≡ input.old.bytes }
{
    let at = input.at;
    let byte = read_u8(input)?;
    if byte != wanted {
        return Err(FieldFault::BadTag(at, byte));
    }
    Ok(())
}

/// Reads the letters with which a file begins.
fn read_letters(input: &mut Input) -> Result<(), FieldFault>
    ensures read { ReadsSurely (bytes_are letters input.old) input.new result }
    ensures kept { input.new.bytes ≡ input.old.bytes }
{
    read_given(input, 0x42)?;
    read_given(input, 0x44)?;
    read_given(input, 0x53)?;
    read_given(input, 0x43)
}

fn read_version_byte(input: &mut Input) -> Result<Version, FieldFault>
    ensures read { ReadsSurely (version_byte_at input.old) input.new result }
    ensures kept { input.new.bytes ≡ input.old.bytes }
{
    let at = input.at;
    match read_u8(input)? {
        1 => Ok(Version::First),
        2 => Ok(Version::Second),
        byte => Err(FieldFault::BadTag(at, byte)),
    }
}

/// Reads the letters, and the version.
fn read_version(input: &mut Input) -> Result<Version, FieldFault>
    ensures read { ReadsSurely (version_at input.old) input.new result }
    ensures kept { input.new.bytes ≡ input.old.bytes }
{
    read_letters(input)?;
    read_version_byte(input)
}

/// Reads the fields behind the version.
fn read_fields(alloc: Global, input: &mut Input) -> Result<Image, FieldFault>
    ensures read { Reads (fields_at input.old) input.new result }
    ensures kept { input.new.bytes ≡ input.old.bytes }
{
    let path = read_text(alloc, input)?;
    let unit = read_unit(alloc, input)?;
    let threads = read_threads(alloc, input)?;
    let tasks = read_tasks(alloc, input)?;
    let rules = read_rules(alloc, input)?;
    Ok(Image {
        path,
        unit,
        threads,
        tasks,
        rules,
    })
}

/// Reads so many bytes.
fn read_bytes(alloc: Global, input: &mut Input, count: usize) -> Result<ByteText, FieldFault>
    requires { count < 64 }
    ensures read { Reads (bytes_at count input.old) input.new result }
    ensures kept { input.new.bytes ≡ input.old.bytes }
{
    let bytes = input.bytes.as_slice();
    let at = (input.at as usize).min(bytes.len());
    if bytes.len() - at < count {
        return Err(FieldFault::Short(bytes.len() as u64));
    }
    match Vec::from_slice(alloc, &bytes[at..at + count]) {
        Ok(text) => {
            input.at += count as u64;
            Ok(Listed::from_vec(text))
        }
        Err(_) => Err(FieldFault::NoMemory),
    }
}

/// Reads the trailer.
fn read_sum(alloc: Global, input: &mut Input, version: Version) -> Result<ByteText, FieldFault>
    ensures read { Reads (sum_at version input.old) input.new result }
    ensures kept { input.new.bytes ≡ input.old.bytes }
{
    match version {
        Version::First => read_bytes(alloc, input, 0),
        Version::Second => read_bytes(alloc, input, 32),
    }
}

fn read_parts(alloc: Global, input: &mut Input) -> Result<File, FieldFault>
    ensures read { Reads (file_at input.old) input.new result }
    ensures kept { input.new.bytes ≡ input.old.bytes }
{
    let version = read_version(input)?;
    let image = read_fields(alloc, input)?;
    let sum = read_sum(alloc, input, version)?;
    Ok(File {
        version,
        image,
        sum,
    })
}

/// Reads all fields of a file, the trailer among them.
pub(crate) fn read_file(alloc: Global, input: &mut Input) -> Result<File, FieldFault>
    ensures read { Reads (file_at input.old) input.new result }
    ensures legal { IfOk result IsFieldFile }
    ensures stretch { IfOk result (λ f. Stretch input.old (spell_file f) input.new) }
    ensures kept { input.new.bytes ≡ input.old.bytes }
{
    are_bytes(input.bytes.as_slice());
    read_parts(alloc, input)
}
