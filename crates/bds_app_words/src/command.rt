//! What the words of a call ask for, and why they weren't read.
use bds_value::{ByteText, Texts};

/// The host that a script runs over.
#[derive(Drop)]
pub enum Over {
    /// The host of the call itself.
    Plain,
    /// The same, and behind the run a log of its replies is written to this path.
    Log(ByteText),
    /// A farm. The tasks are submitted by one command of the shell, and another one tells which of them have ended.
    Farm { submit: ByteText, poll: ByteText },
}

/// What the words of a call ask for.
#[derive(Drop)]
pub enum Command {
    /// Runs a script on so many processors, within so many ticks. The words are for the script.
    Run {
        cpus: u32,
        ticks: u64,
        script: ByteText,
        words: Texts,
        over: Over,
    },
    /// Goes on from a file.
    Resume {
        cpus: u32,
        ticks: u64,
        file: ByteText,
        over: Over,
    },
    /// Checks a script.
    Check(ByteText),
    /// Tells what a file holds.
    Info(ByteText),
    /// Makes and runs a script of this size.
    Make(u32),
    /// Formats a script.
    Format(ByteText),
    /// Tells again what the run printed whose replies this file holds.
    Replay(ByteText),
    /// Runs a script without its commands and without a change to a file.
    Dry {
        cpus: u32,
        ticks: u64,
        script: ByteText,
        words: Texts,
    },
    /// Runs each test function of a script, in the same way.
    Test {
        cpus: u32,
        ticks: u64,
        script: ByteText,
    },
}

/// Why words weren't read.
#[derive(Clone, Copy, Debug, PartialEq, Eq)]
pub enum WordsFault {
    /// The words ask for nothing that there is.
    NotUnderstood,
    /// There was no memory for the answer.
    NoMemory,
}
