//! Which ready thread goes on.
ghost use Rattle.std.specs.Prelude.{◌≡◌, true, IfSome};
ghost use Rattle.bds_host.specs.Asks.{fits as fits_of};
ghost use Rattle.bds_host.specs.declared.asks.Reply.TheVariants.{Run};
ghost use Rattle.bds_exec.specs.Turns.{chosen};

use bds_around::turn;
use bds_host::Ask;

/// The thread that an ask lets go on.
pub fn chosen_by(ask: &Ask, last: Option<u32>) -> Option<u32>
    ensures chosen { result ≡ chosen last ask.now }
    ensures fitting { IfSome result (λ k. fits_of ask.now (Run k) ≡ true) }
{
    match ask {
        Ask::Next { ready, .. } => turn(ready.as_slice(), last),
        _ => None,
    }
}
