//! What a line says.
use crate::item::{Item, LineFault, items};
use bds_host::Reply;
use bds_value::{ByteText, copy_text};
use std::alloc::Global;

/// What a line of a file of cases says.
#[derive(Debug, Drop)]
pub enum Line {
    /// It is blank, or a remark.
    Nothing,
    /// A case begins, with its name.
    Case(ByteText),
    /// The words of the call.
    Words(Vec<String>),
    /// The next reply.
    Reply(Reply),
    /// The next reply is what the case before has saved, the first, second and so on.
    Saved(u32),
    /// So many replies `Done`.
    Done(u32),
    /// The bytes of the last reply go on with a text, so many times.
    More(ByteText, u32),
    /// They go on with lines of two texts with a number between them: 0, 1 and so on, so many.
    Numbered(ByteText, ByteText, u32),
}

/// The number that is written in digits.
fn number(word: &ByteText) -> Result<u64, LineFault> {
    match str::from_utf8(word.as_slice()) {
        Ok(digits) => digits.parse::<u64>().map_err(|_| LineFault::Form),
        Err(_) => Err(LineFault::Form),
    }
}

fn time(word: &ByteText) -> Result<i64, LineFault> {
    match str::from_utf8(word.as_slice()) {
        Ok(digits) => digits.parse::<i64>().map_err(|_| LineFault::Form),
        Err(_) => Err(LineFault::Form),
    }
}

fn count(word: &ByteText) -> Result<u32, LineFault> {
    u32::try_from(number(word)?).map_err(|_| LineFault::Form)
}

fn code(word: &ByteText) -> Result<u8, LineFault> {
    u8::try_from(number(word)?).map_err(|_| LineFault::Form)
}

/// The words of a call.
fn words(alloc: Global, parts: &[Item]) -> Result<Line, LineFault> {
    let mut words = Vec::new(alloc);
    for part in parts {
        match part {
            Item::Text(text) => words.push(word(alloc, text)?)?,
            Item::Word(_) => return Err(LineFault::Form),
        }
    }
    Ok(Line::Words(words))
}

fn word(alloc: Global, text: &ByteText) -> Result<String, LineFault> {
    match str::from_utf8(text.as_slice()) {
        Ok(word) => Ok(String::from_str(alloc, word)?),
        Err(_) => Err(LineFault::Form),
    }
}

/// The reply that a word and what stands behind it tell of.
fn reply(alloc: Global, word: &str, parts: &[Item]) -> Result<Reply, LineFault> {
    Ok(match (word, parts) {
        ("bytes", [Item::Text(text)]) => Reply::Bytes(copy_text(alloc, text)?),
        ("missing", []) => Reply::Missing,
        ("stamp", [Item::Word(size), Item::Word(at)]) => Reply::Stamp {
            there: true,
            size: number(size)?,
            time: time(at)?,
        },
        ("no_stamp", []) => Reply::Stamp {
            there: false,
            size: 0,
            time: 0,
        },
        ("sys", [Item::Word(status), Item::Text(out)]) => Reply::SysDone {
            code: code(status)?,
            out: copy_text(alloc, out)?,
        },
        ("started", []) => Reply::Started,
        ("run", [Item::Word(thread)]) => Reply::Run(count(thread)?),
        ("ended", [Item::Word(task), Item::Word(status)]) => Reply::Ended {
            task: count(task)?,
            code: code(status)?,
        },
        ("fault", []) => Reply::Fault,
        ("no_room", []) => Reply::NoRoom,
        _ => return Err(LineFault::Form),
    })
}

/// What a line says that begins with a word.
fn line_of(alloc: Global, word: &str, parts: &[Item]) -> Result<Line, LineFault> {
    Ok(match (word, parts) {
        ("case", [Item::Text(name)]) => Line::Case(copy_text(alloc, name)?),
        ("words", texts) => words(alloc, texts)?,
        ("saved", [Item::Word(number)]) => Line::Saved(count(number)?),
        ("done", []) => Line::Done(1),
        ("done", [Item::Word(times)]) => Line::Done(count(times)?),
        ("more", [Item::Text(text)]) => Line::More(copy_text(alloc, text)?, 1),
        ("more", [Item::Text(text), Item::Word(times)]) => {
            Line::More(copy_text(alloc, text)?, count(times)?)
        }
        ("numbered", [Item::Text(front), Item::Text(back), Item::Word(times)]) => {
            Line::Numbered(
                copy_text(alloc, front)?,
                copy_text(alloc, back)?,
                count(times)?,
            )
        }
        _ => Line::Reply(reply(alloc, word, parts)?),
    })
}

/// What a line says. One that begins with `#` is a remark.
pub fn read_line(alloc: Global, text: &[u8]) -> Result<Line, LineFault> {
    if let [b'#', ..] = text {
        return Ok(Line::Nothing);
    }
    let parts = items(alloc, text)?;
    match parts.as_slice() {
        [] => Ok(Line::Nothing),
        [Item::Word(word), rest @ ..] => match str::from_utf8(word.as_slice()) {
            Ok(word) => line_of(alloc, word, rest),
            Err(_) => Err(LineFault::Form),
        },
        [Item::Text(_), ..] => Err(LineFault::Form),
    }
}
