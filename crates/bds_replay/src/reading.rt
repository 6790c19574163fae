//! Reading the fields of a log.
ghost use Rattle.std.specs.Prelude.{◌≡◌, ◌+◌, ◌^◌, ◌<◌, IfOk, IfErr};
ghost use Rattle.bds_value.specs.Reading.{Reads, ReadsSurely, bytes_at, forward, many, read_map};
ghost use Rattle.bds_value.specs.declared.TheConstants.{MAX_TEXT};
ghost use Rattle.bds_replay.specs.Log.{MAX_LENGTH, byte_is, bytes_are, cpus_at, log_at, mark, most_words};
ghost use Rattle.bds_replay.specs.Log.{done_at, done_of, ended_at, ended_of, reply_at, reply_of, stamp_at, stamp_of};
ghost use Rattle.bds_replay.specs.Longs.{long_at, long_count_at, long_list_at};

use crate::log::{Job, Log};
use bds_host::{Replies, Reply};
use bds_value::{
    ByteText, FieldFault, Input, Listed, MAX_ITEMS, MAX_PROCESSORS, MAX_TEXT, MAX_TICKS, Texts,
    read_bool, read_i64, read_u8, read_u32, read_u64,
};
use std::alloc::Global;

/// A number up to its limit.
fn read_length(input: &mut Input, limit: u64) -> Result<u64, FieldFault>
    ensures read { ReadsSurely (long_count_at limit input.old) input.new result }
    ensures kept { input.new.bytes ≡ input.old.bytes }
{
    let at = input.at;
    let count = read_u64(input)?;
    if count > limit {
        return Err(FieldFault::BadNumber(at, count));
    }
    Ok(count)
}

/// Lends the next bytes.
fn next(input: &Input, count: usize) -> Result<&[u8], FieldFault>
    ensures ok { IfOk result (λ s. bytes_at count input.now ≡ Ok (s.now, forward count input.now)) }
    ensures err { IfErr result (λ fault. bytes_at count input.now ≡ Err fault) }
    ensures fits { IfOk result (λ s. input.now.at + count < 2 ^ 64) }
{
    let bytes = input.bytes.as_slice();
    let at = (input.at as usize).min(bytes.len());
    if bytes.len() - at < count {
        return Err(FieldFault::Short(bytes.len() as u64));
    }
    Ok(&bytes[at..at + count])
}

fn read_bytes(alloc: Global, input: &mut Input, count: usize) -> Result<ByteText, FieldFault>
    ensures read { Reads (bytes_at count input.old) input.new result }
    ensures kept { input.new.bytes ≡ input.old.bytes }
{
    let bytes = next(input, count)?;
    match Vec::from_slice(alloc, bytes) {
        Ok(text) => {
            input.at += count as u64;
            Ok(Listed::from_vec(text))
        }
        Err(_) => Err(FieldFault::NoMemory),
    }
}

/// A text behind its length.
fn read_long(alloc: Global, input: &mut Input, limit: u64) -> Result<ByteText, FieldFault>
    ensures read { Reads (long_at limit input.old) input.new result }
    ensures kept { input.new.bytes ≡ input.old.bytes }
{
    let count = read_length(input, limit)?;
    read_bytes(alloc, input, count as usize)
}

fn read_counted_words(alloc: Global, input: &mut Input, count: u64) -> Result<Texts, FieldFault>
    ensures read { Reads (many (long_at MAX_TEXT) count input.old) input.new result }
    ensures kept { input.new.bytes ≡ input.old.bytes }
{
    let mut words = Listed::new(alloc);
    for _ in 0..count {
        words.push(read_long(alloc, input, MAX_TEXT)?)?;
    }
    Ok(words)
}

/// How many words there may be.
fn most_words(resume: bool) -> u64
    ensures { result ≡ most_words resume }
{
    if resume { 0 } else { MAX_ITEMS }
}

fn read_words(alloc: Global, input: &mut Input, resume: bool) -> Result<Texts, FieldFault>
    ensures read { Reads (long_list_at (most_words resume) (long_at MAX_TEXT) input.old) input.new result }
    ensures kept { input.new.bytes ≡ input.old.bytes }
{
    let count = read_length(input, most_words(resume))?;
    read_counted_words(alloc, input, count)
}

// Replies

fn read_stamp(input: &mut Input) -> Result<Reply, FieldFault>
    ensures read { ReadsSurely (read_map stamp_of (stamp_at input.old)) input.new result }
    ensures kept { input.new.bytes ≡ input.old.bytes }
{
    let there = read_bool(input)?;
    let size = read_u64(input)?;
    let time = read_i64(input)?;
    Ok(Reply::Stamp { there, size, time })
}

fn read_done(alloc: Global, input: &mut Input) -> Result<Reply, FieldFault>
    ensures read { Reads (read_map done_of (done_at input.old)) input.new result }
    ensures kept { input.new.bytes ≡ input.old.bytes }
{
    let code = read_u8(input)?;
    let out = read_long(alloc, input, u64::MAX)?;
    Ok(Reply::SysDone { code, out })
}

fn read_ended(input: &mut Input) -> Result<Reply, FieldFault>
    ensures read { ReadsSurely (read_map ended_of (ended_at input.old)) input.new result }
    ensures kept { input.new.bytes ≡ input.old.bytes }
{
    let task = read_u32(input)?;
    let code = read_u8(input)?;
    Ok(Reply::Ended { task, code })
}

/// A reply behind its tag, which stands at a place.
fn read_tagged(alloc: Global, input: &mut Input, at: u64, tag: u8) -> Result<Reply, FieldFault>
    ensures read { Reads (reply_of at tag input.old) input.new result }
    ensures kept { input.new.bytes ≡ input.old.bytes }
{
    match tag {
        0 => Ok(Reply::Bytes(read_long(alloc, input, u64::MAX)?)),
        1 => Ok(Reply::Missing),
        2 => read_stamp(input),
        3 => Ok(Reply::Done),
        4 => read_done(alloc, input),
        5 => Ok(Reply::Started),
        6 => Ok(Reply::Run(read_u32(input)?)),
        7 => read_ended(input),
        _ => Err(FieldFault::BadTag(at, tag)),
    }
}

fn read_reply(alloc: Global, input: &mut Input) -> Result<Reply, FieldFault>
    ensures read { Reads (reply_at input.old) input.new result }
    ensures kept { input.new.bytes ≡ input.old.bytes }
{
    let at = input.at;
    let tag = read_u8(input)?;
    read_tagged(alloc, input, at, tag)
}

fn read_counted_replies(alloc: Global, input: &mut Input, count: u64) -> Result<Replies, FieldFault>
    ensures read { Reads (many reply_at count input.old) input.new result }
    ensures kept { input.new.bytes ≡ input.old.bytes }
{
    let mut replies = Listed::new(alloc);
    for _ in 0..count {
        replies.push(read_reply(alloc, input)?)?;
    }
    Ok(replies)
}

fn read_replies(alloc: Global, input: &mut Input) -> Result<Replies, FieldFault>
    ensures read { Reads (long_list_at MAX_LENGTH reply_at input.old) input.new result }
    ensures kept { input.new.bytes ≡ input.old.bytes }
{
    let count = read_length(input, u64::MAX)?;
    read_counted_replies(alloc, input, count)
}

// The whole

fn read_given(input: &mut Input, wanted: u8) -> Result<(), FieldFault>
    ensures read { ReadsSurely (byte_is wanted input.old) input.new result }
    ensures kept { input.new.bytes ≡ input.old.bytes }
{
    let at = input.at;
    let byte = read_u8(input)?;
    if byte != wanted {
        return Err(FieldFault::BadTag(at, byte));
    }
    Ok(())
}

fn read_mark(input: &mut Input) -> Result<(), FieldFault>
    ensures read { ReadsSurely (bytes_are mark input.old) input.new result }
    ensures kept { input.new.bytes ≡ input.old.bytes }
{
    read_given(input, 66)?;
    read_given(input, 68)?;
    read_given(input, 83)?;
    read_given(input, 76)?;
    read_given(input, 1)
}

#[tactic(auto, using(crate::proofs::Longs::from_ones))]
fn read_cpus(input: &mut Input) -> Result<u32, FieldFault>
    ensures read { ReadsSurely (cpus_at input.old) input.new result }
    ensures kept { input.new.bytes ≡ input.old.bytes }
{
    let at = input.at;
    let count = read_u32(input)?;
    if count < 1 || count > MAX_PROCESSORS {
        return Err(FieldFault::BadNumber(at, count as u64));
    }
    Ok(count)
}

/// Reads all fields of a log.
pub fn read_fields(alloc: Global, input: &mut Input) -> Result<Log, FieldFault>
    ensures read { Reads (log_at input.old) input.new result }
    ensures kept { input.new.bytes ≡ input.old.bytes }
{
    read_mark(input)?;
    let resume = read_bool(input)?;
    let path = read_long(alloc, input, u64::MAX)?;
    let cpus = read_cpus(input)?;
    let ticks = read_length(input, MAX_TICKS)?;
    let words = read_words(alloc, input, resume)?;
    let replies = read_replies(alloc, input)?;
    Ok(Log {
        job: Job {
            resume,
            path,
            cpus,
            ticks,
            words,
        },
        replies,
    })
}
