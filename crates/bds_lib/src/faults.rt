//! Why a method or change gives nothing.
ghost use Rattle.std.specs.Prelude.{◌≡◌};
ghost use Rattle.bds_lib.specs.declared.faults.LibFault.{LibFault};

use bds_value::{ByteText, NoMemory};

/// Why a method or a change has no result: the index with the length that it doesn't fit, the
/// bytes or items that the result would need, or the text that is no number.
#[derive(Debug, Drop)]
pub enum LibFault {
    NoIndex(i64, u64),
    TooLong(u64),
    NotANumber(ByteText),
    NoMemory,
}

impl From<NoMemory> for LibFault {
    ghost from_gives = { λ _ fault. fault ≡ LibFault.NoMemory };

    fn from(_: NoMemory) -> Self {
        LibFault::NoMemory
    }
}
