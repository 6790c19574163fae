//! What stops a job before its end.

ghost use Rattle.std.specs.Prelude.{◌≡◌};
ghost use Rattle.bds_app_run.specs.declared.stop.Stop.TheVariants.{NoMemory as OutOfMemory};

use bds_value::NoMemory;

/// What stops a job before its end.
#[derive(Clone, Copy, Debug, PartialEq, Eq)]
pub enum Stop {
    /// A reply was a fault.
    Fault,
    NoMemory,
}

impl From<NoMemory> for Stop {
    ghost from_gives = { λ _ e. e ≡ OutOfMemory };

    fn from(_: NoMemory) -> Self {
        Stop::NoMemory
    }
}
