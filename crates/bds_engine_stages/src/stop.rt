//! Why a step isn't taken.
use bds_value::NoMemory;

/// Why a step isn't taken: no tick is left for it, or no memory.
#[derive(Clone, Copy, Debug)]
pub enum Halt {
    Spent,
    NoMemory,
}

impl From<NoMemory> for Halt {
    ghost use Rattle.std.specs.Prelude.{◌≡◌};
    ghost use Rattle.bds_engine_stages.specs.declared.stop.Halt.{Halt};

    ghost from_gives = { λ _ halt. halt ≡ Halt.NoMemory };

    fn from(_: NoMemory) -> Self {
        Halt::NoMemory
    }
}
