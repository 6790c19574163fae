//! Why words set nothing.
use bds_value::{ByteText, NoMemory};

/// Why words set nothing: what the first word sets that can't be read.
#[derive(Debug, Drop)]
pub enum WordsFault {
    /// No global of the name, or none that words can set.
    NoVariable(ByteText),
    /// The value for the global of the name is missing or isn't of its type.
    BadValue(ByteText),
    NoMemory,
}

impl From<NoMemory> for WordsFault {
    ghost use Rattle.std.specs.Prelude.{◌≡◌};
    ghost use Rattle.bds_check_words.specs.declared.faults.WordsFault.TheVariants.{NoMemory};

    ghost from_gives = { λ _ e. e ≡ NoMemory };

    fn from(_fault: NoMemory) -> WordsFault {
        WordsFault::NoMemory
    }
}
