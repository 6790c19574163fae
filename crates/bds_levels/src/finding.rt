//! Finding the first that is at most a number.
ghost use Rattle.std.specs.Prelude.{◌≡◌, ◌<◌, ◌+◌, ◌*◌, ◌/◌, None, Some, [], length};
ghost use Rattle.bds_levels.specs.Least.{place, place_from, halved, AreAbove, IsLarge};

use bds_value::Numbers;

/// Of the two over which a place stands, the one that is meant.
#[tactic(auto, using(crate::proofs::PlaceLaws::below_first, crate::proofs::PlaceLaws::below_second))]
fn below(lower: &[u32], at: usize, most: u32) -> usize
    requires there { 2 * at < length lower.now }
    requires found { place most (halved lower.now) ≡ Some at }
    ensures { place most lower.now ≡ Some result }
{
    if lower[2 * at] <= most {
        2 * at
    } else {
        2 * at + 1
    }
}

/// The same, where a place from another on is meant, at which the number is too large.
#[tactic(auto, using(crate::proofs::FromLaws::from_first, crate::proofs::FromLaws::from_second))]
fn below_from(lower: &[u32], at: usize, over: usize, most: u32) -> usize
    requires there { 2 * over < length lower.now }
    requires large { IsLarge at most lower.now }
    requires found { place_from ((at + 1) / 2) most (halved lower.now) ≡ Some over }
    ensures { place_from at most lower.now ≡ Some result }
{
    if lower[2 * over] <= most {
        2 * over
    } else {
        2 * over + 1
    }
}

/// The first of at most one number that is at most another.
fn find_one(lower: &[u32], most: u32) -> Option<usize>
    requires { AreAbove lower.now [] }
    ensures { result ≡ place most lower.now }
{
    match lower.first() {
        Some(n) => { if *n <= most { Some(0) } else { None } }
        None => None,
    }
}

/// The place of the first that is at most a number.
#[tactic(auto, using(crate::proofs::PlaceLaws::none_below, crate::proofs::PlaceLaws::below_there))]
pub fn find(lower: &[u32], above: &[Numbers], most: u32) -> Option<usize>
    requires { AreAbove lower.now above.now }
    ensures { result ≡ place most lower.now }
{
    match above {
        [] => find_one(lower, most),
        [level, rest @ ..] => match find(level.as_slice(), rest, most) {
            Some(at) => Some(below(lower, at, most)),
            None => None,
        },
    }
}

/// The place of the first that is at most a number, from a place on.
#[tactic(auto, using(crate::proofs::FromLaws::none_from, crate::proofs::FromLaws::from_there, crate::proofs::FromLaws::from_past, crate::proofs::FromLaws::from_here, crate::proofs::FromLaws::none_alone))]
pub fn find_from(lower: &[u32], above: &[Numbers], at: usize, most: u32) -> Option<usize>
    requires { AreAbove lower.now above.now }
    ensures { result ≡ place_from at most lower.now }
{
    if at >= lower.len() {
        return None;
    }
    if lower[at] <= most {
        return Some(at);
    }
    match above {
        [] => None,
        // what stands over the place and the next one tells of the next one alone
        [level, rest @ ..] => match find_from(level.as_slice(), rest, (at + 1) / 2, most) {
            Some(over) => Some(below_from(lower, at, over, most)),
            None => None,
        },
    }
}
