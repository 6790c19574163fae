//! How names, asks, replies and answers are told.
use bds_app::Outcome;
use bds_host::{Ask, Reply};
use bds_value::{ByteText, NoMemory, Numbers, put};
use itoa::Buffer;

/// The most bytes of a text that are told.
const MOST: usize = 400;

/// A digit to the base of 16.
fn digit(value: u8) -> u8 {
    match value {
        0..=9 => value.wrapping_add(b'0'),
        _ => value.wrapping_add(b'a' - 10),
    }
}

/// Puts a byte as it stands between quotes.
fn put_byte(out: &mut Vec<u8>, byte: u8) -> Result<(), NoMemory> {
    match byte {
        b'\n' => put(out, b"\\n"),
        b'\t' => put(out, b"\\t"),
        b'\r' => put(out, b"\\r"),
        b'"' => put(out, b"\\\""),
        b'\\' => put(out, b"\\\\"),
        32..=126 => put(out, &[byte]),
        _ => put(out, &[b'\\', b'x', digit(byte / 16), digit(byte % 16)]),
    }
}

/// Puts a number.
pub fn put_count(out: &mut Vec<u8>, number: u64) -> Result<(), NoMemory> {
    let mut buffer = Buffer::new();
    put(out, buffer.format(number).as_bytes())
}

/// Puts a word and a number.
fn put_number(out: &mut Vec<u8>, word: &str, number: u64) -> Result<(), NoMemory> {
    put(out, word.as_bytes())?;
    put(out, b" ")?;
    put_count(out, number)
}

/// Puts a number with its sign.
fn put_time(out: &mut Vec<u8>, time: i64) -> Result<(), NoMemory> {
    let mut buffer = Buffer::new();
    put(out, b" ")?;
    put(out, buffer.format(time).as_bytes())
}

/// Puts bytes between quotes.
fn put_quoted(out: &mut Vec<u8>, bytes: &[u8]) -> Result<(), NoMemory> {
    put(out, b" \"")?;
    for byte in bytes {
        put_byte(out, *byte)?;
    }
    put(out, b"\"")
}

/// Puts a word and a text in quotes. Of a long text its front is put, and how many bytes follow.
fn put_text(out: &mut Vec<u8>, word: &str, text: &ByteText) -> Result<(), NoMemory> {
    put(out, word.as_bytes())?;
    let bytes = text.as_slice();
    if bytes.len() <= MOST {
        put_quoted(out, bytes)
    } else {
        let (front, rest) = bytes.split_at(MOST);
        put_quoted(out, front)?;
        put_number(out, " and", rest.len() as u64)
    }
}

fn put_numbers(out: &mut Vec<u8>, word: &str, numbers: &Numbers) -> Result<(), NoMemory> {
    put(out, word.as_bytes())?;
    for number in numbers.as_slice() {
        put(out, b" ")?;
        put_count(out, u64::from(*number))?;
    }
    Ok(())
}

fn put_ask(out: &mut Vec<u8>, ask: &Ask) -> Result<(), NoMemory> {
    match ask {
        Ask::Read(path) => put_text(out, "read", path),
        Ask::Stamp(path) => put_text(out, "stamp", path),
        Ask::Write { path, text } => {
            put_text(out, "write", path)?;
            put_text(out, "", text)
        }
        Ask::Remove(path) => put_text(out, "remove", path),
        Ask::Out(text) => put_text(out, "out", text),
        Ask::Err(text) => put_text(out, "err", text),
        Ask::Sys(command) => put_text(out, "sys", command),
        Ask::Start { task, attempt, cmd } => {
            put_number(out, "start", u64::from(*task))?;
            put_number(out, "", u64::from(*attempt))?;
            put_text(out, "", cmd)
        }
        Ask::Next { ready, running } => {
            put_numbers(out, "next ready", ready)?;
            put_numbers(out, " running", running)
        }
        Ask::Save { path, image } => {
            put_text(out, "save", path)?;
            put_text(out, "", image)
        }
    }
}

fn put_stamp(out: &mut Vec<u8>, there: bool, size: u64, time: i64) -> Result<(), NoMemory> {
    if there {
        put_number(out, "stamp", size)?;
        put_time(out, time)
    } else {
        put(out, b"no_stamp")
    }
}

fn put_reply(out: &mut Vec<u8>, reply: &Reply) -> Result<(), NoMemory> {
    match reply {
        Reply::Bytes(text) => put_text(out, "bytes", text),
        Reply::Missing => put(out, b"missing"),
        Reply::Stamp { there, size, time } => put_stamp(out, *there, *size, *time),
        Reply::Done => put(out, b"done"),
        Reply::SysDone { code, out: printed } => {
            put_number(out, "sys", u64::from(*code))?;
            put_text(out, "", printed)
        }
        Reply::Started => put(out, b"started"),
        Reply::Run(thread) => put_number(out, "run", u64::from(*thread)),
        Reply::Ended { task, code } => {
            put_number(out, "ended", u64::from(*task))?;
            put_number(out, "", u64::from(*code))
        }
        Reply::Fault => put(out, b"fault"),
        Reply::NoRoom => put(out, b"no_room"),
    }
}

/// Puts a line with the name of a case.
pub fn put_name(out: &mut Vec<u8>, name: &ByteText) -> Result<(), NoMemory> {
    put_text(out, "case", name)?;
    put(out, b"\n")
}

/// Puts a line with an ask and its reply.
pub fn put_pair(out: &mut Vec<u8>, ask: &Ask, reply: &Reply) -> Result<(), NoMemory> {
    put_ask(out, ask)?;
    put(out, b" -> ")?;
    put_reply(out, reply)?;
    put(out, b"\n")
}

/// Puts a line with an answer.
pub fn put_outcome(out: &mut Vec<u8>, outcome: Outcome) -> Result<(), NoMemory> {
    put(out, b"answer ")?;
    match outcome {
        Outcome::Ended(status) => put_number(out, "ended", u64::from(status))?,
        Outcome::Refused => put(out, b"refused")?,
        Outcome::BadFile => put(out, b"bad_file")?,
        Outcome::Device => put(out, b"device")?,
        Outcome::Words => put(out, b"words")?,
        Outcome::NoMemory => put(out, b"no_memory")?,
        Outcome::Ticks => put(out, b"ticks")?,
    }
    put(out, b"\n")
}
