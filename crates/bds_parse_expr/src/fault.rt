//! Why tokens spell nothing.

use bds_value::NoMemory;
use thiserror::Error;

/// Why there is no script or no expression.
#[derive(Clone, Copy, Debug, PartialEq, Eq, Error)]
pub enum ParseFault {
    /// None is spelled there; the line of the token that doesn't fit, or of the last token where the tokens end too early.
    #[error("line {0}: syntax")]
    Syntax(u32),
    /// Memory ran out.
    #[error("out of memory")]
    NoMemory,
}

/// The line of a fault at the end of the tokens, until `line_in` puts that of the last token in its place.
pub const END: u32 = 0;

impl From<NoMemory> for ParseFault {
    ghost use Rattle.std.specs.Prelude.{◌≡◌};
    ghost use Rattle.bds_parse_expr.specs.declared.fault.ParseFault.TheVariants.{NoMemory};

    ghost from_gives = { λ _ e. e ≡ NoMemory };

    fn from(_fault: NoMemory) -> ParseFault {
        ParseFault::NoMemory
    }
}
