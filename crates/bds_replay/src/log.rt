//! The log of a call.
use bds_host::Replies;
use bds_value::{ByteText, Texts};

/// What a call was asked to do: to run a script, or to go on from a file, with so many processors and ticks. The words
/// are for the script.
#[derive(Drop)]
pub struct Job {
    pub resume: bool,
    pub path: ByteText,
    pub cpus: u32,
    pub ticks: u64,
    pub words: Texts,
}

/// A job, and the replies that it was given, in order.
#[derive(Drop)]
pub struct Log {
    pub job: Job,
    pub replies: Replies,
}

/// Why bytes are those of no log. A place counts bytes from 0.
#[derive(Clone, Copy, Debug, PartialEq, Eq)]
pub enum LogFault {
    /// The bytes end in a field; how many there are.
    Short(u64),
    /// A place, and the byte that stands there.
    BadTag(u64, u8),
    /// The place of a number that is out of its range, and the number.
    BadNumber(u64, u64),
    /// The place of the first byte behind the last field.
    Extra(u64),
    NoMemory,
}
