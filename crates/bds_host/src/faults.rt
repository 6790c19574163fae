//! What ends a call or a run before its end.
use bds_value::{ByteText, RunFault};

/// What ends a call. A first text is the path of the file concerned, and a number behind it the line.
#[derive(Debug, Drop)]
pub enum Fault {
    Words,
    Device,
    Missing(ByteText),
    TooLong(ByteText),
    IncludeTooDeep(ByteText),
    TooBig(ByteText),
    OpenText(ByteText, u32),
    OpenComment(ByteText, u32),
    /// The byte stands last.
    BadByte(ByteText, u32, u8),
    BigNumber(ByteText, u32),
    /// The byte behind the backslash stands last.
    BadEscape(ByteText, u32, u8),
    Syntax(ByteText, u32),
    /// A rule of the checker, by its name.
    Broken {
        path: ByteText,
        line: u32,
        rule: ByteText,
    },
    /// The variable's name stands last.
    NoVariable(ByteText, ByteText),
    /// The variable's name stands last.
    BadValue(ByteText, ByteText),
    NotLoadable(ByteText),
    /// A task's number, and the code of its command.
    TaskFailed(u32, u8),
    Deadlock,
    Run {
        path: ByteText,
        line: u32,
        fault: RunFault,
    },
}
