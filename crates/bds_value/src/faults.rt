//! Why an operator, a text, a place or a field gives nothing, and the faults of a run.
use crate::listed::NoMemory;
use crate::value::{ByteText, Numbers};

/// Why there is no result of an operator. `TooLong` has the length needed.
#[derive(Debug, Drop)]
pub enum OpFault {
    ZeroDivisor,
    TooLong(u64),
    NoMemory,
}

/// Why there is no text. `TooLong` has the length needed.
#[derive(Debug, Drop)]
pub enum TextFault {
    TooLong(u64),
    NoMemory,
}

/// Why a path leads nowhere: the index with the list's length, the key, or the number of pairs
/// that a map would need.
#[derive(Debug, Drop)]
pub enum PutFault {
    NoIndex(i64, u64),
    NoKey(ByteText),
    TooLong(u64),
    NoMemory,
}

/// Why bytes are no field: the length of all bytes where they end in it, else the place of the
/// fault, with the byte or the number that stands there.
#[derive(Debug, Drop)]
pub enum FieldFault {
    Short(u64),
    BadTag(u64, u8),
    BadNumber(u64, u64),
    NotRising(u64),
    NoMemory,
}

/// What ends a run.
#[derive(Debug, Drop)]
pub enum RunFault {
    ZeroDivisor,
    /// An index, and the number of items.
    NoIndex(i64, u64),
    NoKey(ByteText),
    /// The bytes or items that were needed.
    TooLong(u64),
    NotANumber(ByteText),
    CallsTooDeep,
    TooManyThreads,
    TooManyTasks,
    TooManyRules,
    NoFile(ByteText),
    /// The code of a command.
    SysFailed(u8),
    NoId(ByteText),
    BadOption(i64),
    /// A file, and the number of the first rule that makes it.
    TwoRules(ByteText, u32),
    /// The numbers of rules of which each needs the next.
    Cycle(Numbers),
    NoRule(ByteText),
    /// The text that `error` was given.
    Error(ByteText),
}

impl From<NoMemory> for OpFault {
    ghost use Rattle.std.specs.Prelude.{◌≡◌};
    ghost use Rattle.bds_value.specs.declared.faults.OpFault.{OpFault};

    ghost from_gives = { λ _ fault. fault ≡ OpFault.NoMemory };

    fn from(_: NoMemory) -> Self {
        OpFault::NoMemory
    }
}

impl From<NoMemory> for TextFault {
    ghost use Rattle.std.specs.Prelude.{◌≡◌};
    ghost use Rattle.bds_value.specs.declared.faults.TextFault.{TextFault};

    ghost from_gives = { λ _ fault. fault ≡ TextFault.NoMemory };

    fn from(_: NoMemory) -> Self {
        TextFault::NoMemory
    }
}

impl From<NoMemory> for PutFault {
    ghost use Rattle.std.specs.Prelude.{◌≡◌};
    ghost use Rattle.bds_value.specs.declared.faults.PutFault.{PutFault};

    ghost from_gives = { λ _ fault. fault ≡ PutFault.NoMemory };

    fn from(_: NoMemory) -> Self {
        PutFault::NoMemory
    }
}

impl From<NoMemory> for FieldFault {
    ghost use Rattle.std.specs.Prelude.{◌≡◌};
    ghost use Rattle.bds_value.specs.declared.faults.FieldFault.{FieldFault};

    ghost from_gives = { λ _ fault. fault ≡ FieldFault.NoMemory };

    fn from(_: NoMemory) -> Self {
        FieldFault::NoMemory
    }
}
