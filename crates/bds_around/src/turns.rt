//! Which ready thread goes on.
ghost use Rattle.std.specs.Prelude.{◌≡◌, true, IfSome};
ghost use Rattle.bds_host.specs.Asks.{has};
ghost use Rattle.bds_around.specs.Turns.{lesser_of, least_above as least_number_above, turn_of};

use bds_host::least;

/// The lesser of two numbers, where the first is there.
fn lesser(best: Option<u32>, number: u32) -> u32
    ensures { result ≡ lesser_of best number }
{
    match best {
        Some(best) => best.min(number),
        None => number,
    }
}

/// The least number above another one.
#[tactic(auto, using(crate::proofs::Least::leasts))]
fn least_above(numbers: &[u32], bound: u32) -> Option<u32>
    ensures least { result ≡ least_number_above bound numbers.now }
    ensures within { IfSome result (λ k. has numbers.now k ≡ true) }
{
    let mut best = None;
    for number in numbers {
        if *number > bound {
            best = Some(lesser(best, *number));
        }
    }
    best
}

/// The thread whose turn it is.
pub fn turn(ready: &[u32], last: Option<u32>) -> Option<u32>
    ensures turn { result ≡ turn_of last ready.now }
    ensures within { IfSome result (λ k. has ready.now k ≡ true) }
{
    let Some(last) = last else {
        return least(ready);
    };
    match least_above(ready, last) {
        Some(thread) => Some(thread),
        None => least(ready),
    }
}
