//! Why a goal has no files or no plan.
use bds_value::{ByteText, NoMemory, Numbers};

/// Why a goal's files aren't told: rules of which each needs the next and the last the first.
#[derive(Debug, Drop)]
pub enum FilesFault {
    Cycle(Numbers),
    NoMemory,
}

/// Why a goal isn't planned: a file that is missing and that nothing makes.
#[derive(Debug, Drop)]
pub enum PlanFault {
    NoRule(ByteText),
    NoMemory,
}

impl From<NoMemory> for FilesFault {
    ghost use Rattle.std.specs.Prelude.{◌≡◌};
    ghost use Rattle.bds_goal.specs.declared.faults.FilesFault.{FilesFault};

    ghost from_gives = { λ _ fault. fault ≡ FilesFault.NoMemory };

    fn from(_: NoMemory) -> Self {
        FilesFault::NoMemory
    }
}

impl From<NoMemory> for PlanFault {
    ghost use Rattle.std.specs.Prelude.{◌≡◌};
    ghost use Rattle.bds_goal.specs.declared.faults.PlanFault.{PlanFault};

    ghost from_gives = { λ _ fault. fault ≡ PlanFault.NoMemory };

    fn from(_: NoMemory) -> Self {
        PlanFault::NoMemory
    }
}
