//! Changing one number.
ghost use Rattle.std.specs.Prelude.{◌≡◌, ◌<◌, ◌*◌, length};
ghost use Rattle.bds_levels.specs.Least.{halved, pair_at, raised, AreLong};

use bds_value::Numbers;

/// The less of the two over which a place stands.
#[tactic(auto, using(crate::proofs::HalfLaws::two_there, crate::proofs::HalfLaws::one_there))]
fn pair_at(lower: &[u32], at: usize) -> u32
    requires { 2 * at < length lower.now }
    ensures { result ≡ pair_at lower.now at }
{
    if 2 * at + 1 < lower.len() {
        lower[2 * at].min(lower[2 * at + 1])
    } else {
        lower[2 * at]
    }
}

/// Puts right what stands over a list of which one place was changed.
#[tactic(auto, using(crate::proofs::HalfLaws::half_there, crate::proofs::HalfLaws::twice_there, crate::proofs::HalfLaws::long_set))]
pub fn raise(lower: &[u32], above: &mut [Numbers], at: usize)
    requires there { at < length lower.now }
    requires long { AreLong lower.now above.old }
    ensures { above.new ≡ raised at lower.now above.old }
{
    match above.split_first_mut() {
        None => {}
        Some((level, rest)) => {
            let over = at / 2;
            level.set(over, pair_at(lower, over));
            raise(level.as_slice(), rest, over);
        }
    }
}
