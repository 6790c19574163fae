//! The log whose bytes these are.
ghost use Rattle.std.specs.Prelude.{◌≡◌, MatchResult, IfOk, length};
ghost use Rattle.bds_value.specs.Fields.{Stretch};
ghost use Rattle.bds_value.specs.Reading.{Reads};
ghost use Rattle.bds_replay.specs.Log.{IsFieldLog, log_at, log_field};
ghost use Rattle.bds_replay.specs.Loading.{GivesLog, IsLogOf, IsReadTo, NeverRises, Refuses, of_field};
ghost use Rattle.bds_replay.specs.declared.log.Log.{Log as ALog};

use crate::log::{Log, LogFault};
use crate::reading::read_fields;
use bds_value::{ByteText, FieldFault, Input, NoMemory, are_bytes, copy_text};
use std::alloc::Global;

fn field_fault(fault: FieldFault) -> LogFault
    requires { NeverRises fault }
    ensures { result ≡ of_field fault }
{
    match fault {
        FieldFault::Short(at) => LogFault::Short(at),
        FieldFault::BadTag(at, byte) => LogFault::BadTag(at, byte),
        FieldFault::BadNumber(at, n) => LogFault::BadNumber(at, n),
        FieldFault::NotRising(_) => unreachable!(),
        FieldFault::NoMemory => LogFault::NoMemory,
    }
}

/// Reads all fields of a log, which stand there.
fn read_there(alloc: Global, input: &mut Input) -> Result<Log, FieldFault>
    ensures read { Reads (log_at input.old) input.new result }
    ensures stretch { IfOk result (λ l. Stretch input.old (log_field l) input.new) }
    ensures kept { input.new.bytes ≡ input.old.bytes }
{
    are_bytes(input.bytes.as_slice());
    read_fields(alloc, input)
}

/// Reads all bytes as a log.
fn read_whole(alloc: Global, bytes: ByteText) -> Result<Log, LogFault>
    ensures { MatchResult result (IsReadTo bytes (length bytes)) (Refuses bytes) }
{
    let mut input = Input { bytes, at: 0 };
    match read_there(alloc, &mut input) {
        Ok(log) => {
            if input.at < input.bytes.len() as u64 {
                return Err(LogFault::Extra(input.at));
            }
            Ok(log)
        }
        Err(fault) => Err(field_fault(fault)),
    }
}

/// Gives the log whose bytes these are, or the first thing that is wrong with them: fields in their order, and then
/// bytes behind the last one.
pub fn read_log(alloc: Global, bytes: &ByteText) -> Result<Log, LogFault>
    ensures loads { MatchResult result (IsLogOf bytes.now) (Refuses bytes.now) }
    ensures exact { (l : ALog) → IsLogOf bytes.now l → GivesLog l result }
{
    are_bytes(bytes.as_slice());
    match copy_text(alloc, bytes) {
        Ok(copied) => read_whole(alloc, copied),
        Err(NoMemory) => Err(LogFault::NoMemory),
    }
}
