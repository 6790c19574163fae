//! Why a script isn't loaded.

use bds_check::CheckFault;
use bds_lex::LexFault;
use bds_parse_expr::ParseFault;
use bds_value::{ByteText, NoMemory};

/// Why a script isn't loaded, with the path of the file that it concerns.
#[derive(Debug, Drop)]
pub enum FrontFault {
    /// The file isn't there.
    Missing(ByteText),
    /// The file or its path is longer than a text may be.
    TooLong(ByteText),
    /// The file has no tokens.
    Lex(ByteText, LexFault),
    /// The file spells no script.
    Parse(ByteText, ParseFault),
    /// A node of the file breaks a rule.
    Check(ByteText, CheckFault),
    /// The first include that stands too deep in others, or behind too many files. It wasn't read.
    IncludeTooDeep(ByteText),
    /// The outside answered a fault.
    Device,
    NoMemory,
}

impl From<NoMemory> for FrontFault {
    ghost use Rattle.std.specs.Prelude.{◌≡◌};
    ghost use Rattle.bds_front.specs.declared.front_fault.FrontFault.TheVariants.{NoMemory};

    ghost from_gives = { λ _ e. e ≡ NoMemory };

    fn from(_fault: NoMemory) -> FrontFault {
        FrontFault::NoMemory
    }
}
