//! Why a script isn't formatted.

use bds_value::NoMemory;

/// Why a script isn't formatted.
#[derive(Clone, Copy, Debug, PartialEq, Eq)]
pub enum FormatFault {
    /// Its canonical text is longer than a text may be.
    TooLong,
    /// Memory ran out.
    NoMemory,
}

impl From<NoMemory> for FormatFault {
    ghost use Rattle.std.specs.Prelude.{◌≡◌};
    ghost use Rattle.bds_fmt.specs.declared.fault.FormatFault.TheVariants.{NoMemory};

    ghost from_gives = { λ _ e. e ≡ NoMemory };

    fn from(_fault: NoMemory) -> FormatFault {
        FormatFault::NoMemory
    }
}
