//! Writing a log.
ghost use Rattle.std.specs.Prelude.{◌≡◌, ◌<◌, ◌≤◌, ◌^◌, ◌++◌, length, OnOk, IfOk};
ghost use Rattle.std.specs.List.{All, flat_map};
ghost use Rattle.bds_replay.specs.Loading.{IsLogOf};
ghost use Rattle.bds_replay.specs.Log.{IsFieldJob, IsFieldReply, IsGiven, cpus_field, head_field, log_field};
ghost use Rattle.bds_replay.specs.Log.{path_field, reply_field, stamp_field, ticks_field};
ghost use Rattle.bds_replay.specs.Longs.{both_field, long_field, long_list_field};
ghost use Rattle.bds_value.specs.Spelling.{bool_field, u64_field};

use crate::fitting::has_bytes;
use crate::log::{Job, Log};
use bds_host::Reply;
use bds_value::{ByteText, Listed, NoMemory, put, put_bool, put_i64, put_u8, put_u32, put_u64};
use std::alloc::Global;

/// A text behind its length.
fn put_long(out: &mut Vec<u8>, text: &[u8]) -> Result<(), NoMemory>
    ensures { OnOk result (out.new.items ≡ out.old.items ++ long_field text.now) }
{
    put_u64(out, text.len() as u64)?;
    put(out, text)
}

fn put_each_word(out: &mut Vec<u8>, words: &[ByteText]) -> Result<(), NoMemory>
    ensures { OnOk result (out.new.items ≡ out.old.items ++ flat_map long_field words.now) }
{
    for word in words {
        put_long(out, word.as_slice())?;
    }
    Ok(())
}

fn put_words(out: &mut Vec<u8>, words: &[ByteText]) -> Result<(), NoMemory>
    ensures { OnOk result (out.new.items ≡ out.old.items ++ long_list_field long_field words.now) }
{
    put_u64(out, words.len() as u64)?;
    put_each_word(out, words)
}

fn put_size(out: &mut Vec<u8>, there: bool, size: u64) -> Result<(), NoMemory>
    ensures { OnOk result (out.new.items ≡ out.old.items ++ both_field bool_field u64_field (there, size)) }
{
    put_bool(out, there)?;
    put_u64(out, size)
}

fn put_stamp(out: &mut Vec<u8>, there: bool, size: u64, time: i64) -> Result<(), NoMemory>
    ensures { OnOk result (out.new.items ≡ out.old.items ++ stamp_field ((there, size), time)) }
{
    put_size(out, there, size)?;
    put_i64(out, time)
}

fn put_reply(out: &mut Vec<u8>, reply: &Reply) -> Result<(), NoMemory>
    requires { IsFieldReply reply.now }
    ensures { OnOk result (out.new.items ≡ out.old.items ++ reply_field reply.now) }
{
    match reply {
        Reply::Bytes(text) => {
            put_u8(out, 0)?;
            put_long(out, text.as_slice())
        }
        Reply::Missing => put_u8(out, 1),
        Reply::Stamp { there, size, time } => {
            put_u8(out, 2)?;
            put_stamp(out, *there, *size, *time)
        }
        Reply::Done => put_u8(out, 3),
        Reply::SysDone { code, out: text } => {
            put_u8(out, 4)?;
            put_u8(out, *code)?;
            put_long(out, text.as_slice())
        }
        Reply::Started => put_u8(out, 5),
        Reply::Run(thread) => {
            put_u8(out, 6)?;
            put_u32(out, *thread)
        }
        Reply::Ended { task, code } => {
            put_u8(out, 7)?;
            put_u32(out, *task)?;
            put_u8(out, *code)
        }
        Reply::Fault => unreachable!(),
        Reply::NoRoom => unreachable!(),
    }
}

fn put_each_reply(out: &mut Vec<u8>, replies: &[Reply]) -> Result<(), NoMemory>
    requires { All IsFieldReply replies.now }
    ensures { OnOk result (out.new.items ≡ out.old.items ++ flat_map reply_field replies.now) }
{
    for reply in replies {
        put_reply(out, reply)?;
    }
    Ok(())
}

fn put_replies(out: &mut Vec<u8>, replies: &[Reply]) -> Result<(), NoMemory>
    requires { All IsFieldReply replies.now }
    ensures { OnOk result (out.new.items ≡ out.old.items ++ long_list_field reply_field replies.now) }
{
    put_u64(out, replies.len() as u64)?;
    put_each_reply(out, replies)
}

fn put_ticks(out: &mut Vec<u8>, job: &Job) -> Result<(), NoMemory>
    ensures { OnOk result (out.new.items ≡ out.old.items ++ ticks_field job.now) }
{
    put_u64(out, job.ticks)?;
    put_words(out, job.words.as_slice())
}

fn put_cpus(out: &mut Vec<u8>, job: &Job) -> Result<(), NoMemory>
    ensures { OnOk result (out.new.items ≡ out.old.items ++ cpus_field job.now) }
{
    put_u32(out, job.cpus)?;
    put_ticks(out, job)
}

fn put_path(out: &mut Vec<u8>, job: &Job) -> Result<(), NoMemory>
    ensures { OnOk result (out.new.items ≡ out.old.items ++ path_field job.now) }
{
    put_long(out, job.path.as_slice())?;
    put_cpus(out, job)
}

/// What stands behind the mark, up to the words.
fn put_head(out: &mut Vec<u8>, job: &Job) -> Result<(), NoMemory>
    ensures { OnOk result (out.new.items ≡ out.old.items ++ head_field job.now) }
{
    put_bool(out, job.resume)?;
    put_path(out, job)
}

fn write_fields(alloc: Global, log: &Log) -> Result<ByteText, NoMemory>
    requires { All IsFieldReply log.now.replies }
    ensures { IfOk result (λ bytes. bytes ≡ log_field log.now) }
{
    let mut out = Vec::new(alloc);
    put(&mut out, b"BDSL\x01")?;
    put_head(&mut out, &log.job)?;
    put_replies(&mut out, log.replies.as_slice())?;
    Ok(Listed::from_vec(out))
}

/// The bytes of a log.
pub fn write_log(alloc: Global, log: &Log) -> Result<ByteText, NoMemory>
    requires job { IsFieldJob log.now.job }
    requires given { All IsGiven log.now.replies }
    ensures { IfOk result (λ bytes. IsLogOf bytes log.now) }
{
    has_bytes(log);
    write_fields(alloc, log)
}
