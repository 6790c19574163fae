//! Making what stands over a list.
ghost use Rattle.std.specs.Prelude.{◌≡◌, IfOk};
ghost use Rattle.bds_levels.specs.Least.{halved, AreAbove};

use bds_value::{Listed, NoMemory, Numbers};
use std::alloc::Global;

/// The less of each two.
pub fn halved(alloc: Global, numbers: &[u32]) -> Result<Numbers, NoMemory>
    ensures { IfOk result (λ out. out ≡ halved numbers.now) }
{
    let mut out = Listed::new(alloc);
    let mut left = numbers;
    while let [a, b, rest @ ..] = left {
        out.push((*a).min(*b))?;
        left = rest;
    }
    if let [a] = left {
        out.push(*a)?;
    }
    Ok(out)
}

/// What stands over a list.
#[tactic(auto, using(crate::proofs::HalfLaws::halved_less, crate::proofs::HalfLaws::chain_on, crate::proofs::HalfLaws::chain_end))]
pub fn levels_of(alloc: Global, numbers: &[u32]) -> Result<Listed<Numbers>, NoMemory>
    ensures { IfOk result (λ above. AreAbove numbers.now above) }
{
    let mut above = Listed::new(alloc);
    if numbers.len() > 1 {
        let mut last = halved(alloc, numbers)?;
        while last.len() > 1 {
            let next = halved(alloc, last.as_slice())?;
            above.push(last)?;
            last = next;
        }
        above.push(last)?;
    }
    Ok(above)
}
