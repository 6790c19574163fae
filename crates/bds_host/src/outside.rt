//! All contact with the outside.
ghost use Rattle.std.specs.Prelude.{◌≡◌, ◌≤◌, IfOk, OnErr};
ghost use Rattle.bds_host.specs.Host.{Answered, FoundNoRoom, Log, faults};

use crate::{Ask, Reply, Trace};
use bds_value::NoMemory;
use std::alloc::Global;

/// The outside, seen as the list of what it was asked and what it replied.
pub trait Host {
    ghost log: { Self → Log };

    /// Asks the outside. The room for the pair is taken before the act, so that no act goes unrecorded.
    fn ask(&mut self, alloc: Global, ask: Ask) -> Result<Reply, NoMemory>
        ensures answered { IfOk result (λ reply. Answered (log self.old) (log self.new) ask reply) }
        ensures refused { OnErr result (FoundNoRoom (log self.old) (log self.new) ask) }
        ensures never_falls { faults (log self.old) ≤ faults (log self.new) };

    /// Lends the stored list.
    fn trace(&self) -> &Trace
        ensures { result.now ≡ log self.now };
}
