//! Ids of tasks and threads as texts.
ghost use Rattle.std.specs.Prelude.{◌≡◌, ◌≢◌, ◌<◌, ◌≤◌, ◌^◌, ◌++◌, ℕ, decimal, length, IfOk, MatchOption};
ghost use Rattle.bds_schedule.specs.Ids.{task_id, thread_id};
ghost use Rattle.bds_value.specs.declared.TheConstants.{MAX_ITEMS};
ghost use Rattle.bds_engine_parts.specs.Look.{AreNamed, IsNamed, NumberBehind, Puts};

use bds_code::{Id, Ids};
use bds_value::{ByteText, Listed, NoMemory, put};
use itoa::Buffer;
use std::alloc::Global;

/// Why texts aren't ids.
#[derive(Clone, Copy, Debug)]
pub enum IdFault {
    /// The place of the first text that is none.
    NoId(usize),
    NoMemory,
}

/// Words with a number behind them.
fn numbered(alloc: Global, words: &[u8], n: u32) -> Result<ByteText, NoMemory>
    ensures { IfOk result (λ text. text ≡ words.now ++ decimal n) }
{
    let mut out = Vec::new(alloc);
    let mut buffer = Buffer::new();
    put(&mut out, words)?;
    put(&mut out, buffer.format(n).as_bytes())?;
    Ok(Listed::from_vec(out))
}

/// The id of a task.
pub fn task_id(alloc: Global, n: u32) -> Result<ByteText, NoMemory>
    ensures { IfOk result (λ text. text ≡ task_id n) }
{
    numbered(alloc, b"task.", n)
}

/// The id of a thread.
pub fn thread_id(alloc: Global, n: u32) -> Result<ByteText, NoMemory>
    ensures { IfOk result (λ text. text ≡ thread_id n) }
{
    numbered(alloc, b"thread.", n)
}

/// The number that a text tells in decimal digits, as it is printed.
fn number_of(text: &str) -> Option<u32>
    ensures { MatchOption result ((n : ℕ) → n < 2 ^ 32 → text.now ≢ decimal n) (λ n. text.now ≡ decimal n) }
{
    let Ok(number) = text.parse::<u32>() else {
        return None;
    };
    let mut buffer = Buffer::new();
    if buffer.format(number) == text {
        Some(number)
    } else {
        None
    }
}

/// The number that bytes tell so.
fn number_in(text: &[u8]) -> Option<u32>
    ensures { MatchOption result ((n : ℕ) → n < 2 ^ 32 → text.now ≢ decimal n) (λ n. text.now ≡ decimal n) }
{
    let Ok(text) = str::from_utf8(text) else {
        return None;
    };
    number_of(text)
}

/// The number behind words.
fn number_behind(words: &[u8], text: &[u8]) -> Option<u32>
    ensures { NumberBehind words.now text.now result }
{
    if text.len() < words.len() {
        return None;
    }
    let (head, rest) = text.split_at(words.len());
    if head == words { number_in(rest) } else { None }
}

/// The task of a number, where there are so many.
fn task_of(tasks: u32, threads: u32, text: &[u8], n: u32) -> Option<Id>
    requires { text.now ≡ task_id n }
    ensures { IsNamed tasks threads text.now result }
{
    if n < 1 {
        None
    } else if n <= tasks {
        Some(Id::Task(n))
    } else {
        None
    }
}

/// The thread of a number, where there are so many.
fn thread_of(tasks: u32, threads: u32, text: &[u8], n: u32) -> Option<Id>
    requires { text.now ≡ thread_id n }
    ensures { IsNamed tasks threads text.now result }
{
    if n < threads {
        Some(Id::Thread(n))
    } else {
        None
    }
}

/// The id that a text is, where there are so many tasks and threads.
fn id_of(tasks: u32, threads: u32, text: &[u8]) -> Option<Id>
    ensures { IsNamed tasks threads text.now result }
{
    match number_behind(b"task.", text) {
        Some(n) => task_of(tasks, threads, text, n),
        None => match number_behind(b"thread.", text) {
            Some(n) => thread_of(tasks, threads, text, n),
            None => None,
        },
    }
}

/// Puts the id that a text is at the end, unless the text is empty. False where it is none.
fn put_id(ids: &mut Ids, tasks: u32, threads: u32, text: &[u8]) -> Result<bool, NoMemory>
    ensures { Puts tasks threads text.now ids.old ids.new result }
{
    if text.len() == 0 {
        return Ok(true);
    }
    match id_of(tasks, threads, text) {
        Some(id) => {
            ids.push(id)?;
            Ok(true)
        }
        None => Ok(false),
    }
}

/// The ids that texts are, in their order, without the empty ones; or the first that is none.
pub fn ids_of(alloc: Global, tasks: u32, threads: u32, texts: &[ByteText]) -> Result<Ids, IdFault>
    ensures { AreNamed tasks threads texts.now result }
{
    let mut ids = Listed::new(alloc);
    for i in 0..texts.len() {
        match put_id(&mut ids, tasks, threads, texts[i].as_slice()) {
            Ok(true) => {}
            Ok(false) => return Err(IdFault::NoId(i)),
            Err(_) => return Err(IdFault::NoMemory),
        }
    }
    Ok(ids)
}
