//! Numbers, with what stands over them.
ghost use Rattle.std.specs.Prelude.{◌≡◌, ◌<◌, ◌+◌, ◌++◌, ◌∷◌, [], IfOk, OnOk, OnErr, length, replicate, slice_set};
ghost use Rattle.std.specs.Prelude.{slice_get, take};
ghost use Rattle.bds_levels.specs.Least.{place, place_from, raised, AreAbove, AreLong, AreNever, NEVER as never};

use crate::changing::raise;
use crate::finding::{find, find_from};
use crate::making::levels_of;
use bds_value::{Listed, NoMemory, Numbers};
use std::alloc::Global;
use std::marker::Model;

/// More than any number that is looked for.
pub const NEVER: u32 = u32::MAX;

/// Numbers, of which the first that is at most another is found without a search.
#[derive(Debug, Drop)]
pub struct Levels {
    count: usize,
    /// Behind the numbers there is room for more, which `NEVER` fills.
    lowest: Numbers,
    above: Vec<Numbers>,
}

impl Model for Levels {
    ghost use Rattle.std.specs.Prelude.{List, ℕ, take};
    ghost use Rattle.std.specs.Coded.{coded_list, coded_ℕ};
    ghost use Rattle.bds_levels.specs.Least.{AreAbove, AreNever};

    ghost Value = { List ℕ };

    ghost coded = { coded_list coded_ℕ };

    ghost view = { λ t. take t.count t.lowest };

    ghost invariant = { λ t. AreAbove t.lowest t.above.items × AreNever t.count t.lowest };
}

/// The numbers, with room behind them for as many again.
#[tactic(auto, using(crate::proofs::RoomLaws::more_room))]
fn with_room(alloc: Global, numbers: &[u32]) -> Result<Numbers, NoMemory>
    ensures { IfOk result (λ out. out ≡ numbers.now ++ replicate (length numbers.now + 1) never) }
{
    let mut out = Listed::new(alloc);
    for n in numbers {
        out.push(*n)?;
    }
    for _ in 0..numbers.len() + 1 {
        out.push(NEVER)?;
    }
    Ok(out)
}

/// Puts right what stands over a list of which one place was changed.
fn raise_all(lower: &[u32], above: &mut Vec<Numbers>, at: usize)
    requires there { at < length lower.now }
    requires long { AreLong lower.now above.old.items }
    ensures { above.new.items ≡ raised at lower.now above.old.items }
{
    raise(lower, above, at);
}

/// Puts another number at a place, and puts right what stands over it.
#[tactic(auto, using(crate::proofs::HalfLaws::still_long, crate::proofs::HalfLaws::set_right, crate::proofs::HalfLaws::set_long))]
fn put(lowest: &mut Numbers, above: &mut Vec<Numbers>, at: usize, number: u32)
    requires there { at < length lowest.old }
    requires above { AreAbove lowest.old above.old.items }
    ensures lowest { lowest.new ≡ slice_set lowest.old at number }
    ensures above { AreAbove lowest.new above.new.items }
{
    lowest.set(at, number);
    raise_all(lowest.as_slice(), above, at);
}

/// The place behind another.
fn next(at: usize, numbers: &[u32]) -> usize
    requires { at < length numbers.now }
    ensures { result ≡ at + 1 }
{
    at + 1
}

/// Makes room for one number more behind so many, where there is none.
#[tactic(auto, using(crate::proofs::RoomLaws::room_take, crate::proofs::RoomLaws::room_never))]
fn make_room(
    alloc: Global,
    count: usize,
    lowest: &mut Numbers,
    above: &mut Vec<Numbers>,
) -> Result<(), NoMemory>
    requires above { AreAbove lowest.old above.old.items }
    requires never { AreNever count lowest.old }
    ensures above { AreAbove lowest.new above.new.items }
    ensures never { AreNever count lowest.new }
    ensures same { take count lowest.new ≡ take count lowest.old }
    ensures room { OnOk result (count < length lowest.new) }
{
    if count == lowest.len() {
        let more = with_room(alloc, lowest.as_slice())?;
        let levels = levels_of(alloc, more.as_slice())?;
        *lowest = more;
        *above = levels.into_vec();
    }
    Ok(())
}

impl Levels {
    /// No numbers.
    pub fn new(alloc: Global) -> Levels
        ensures { result ≡ [] }
    {
        Levels {
            count: 0,
            lowest: Listed::new(alloc),
            above: Vec::new(alloc),
        }
    }

    /// Numbers, with what stands over them.
    #[tactic(auto, using(crate::proofs::RoomLaws::full_take, crate::proofs::RoomLaws::full_never))]
    pub fn of(alloc: Global, lowest: Numbers) -> Result<Levels, NoMemory>
        ensures { IfOk result (λ levels. levels ≡ lowest) }
    {
        let above = levels_of(alloc, lowest.as_slice())?;
        Ok(Levels {
            count: lowest.len(),
            lowest,
            above: above.into_vec(),
        })
    }

    /// The place of the first that is at most a number.
    #[tactic(auto, using(crate::proofs::RoomLaws::place_take))]
    pub fn place(&self, most: u32) -> Option<usize>
        requires { most < never }
        ensures { result ≡ place most self.now }
    {
        find(self.lowest.as_slice(), &self.above, most)
    }

    /// The place of the first that is at most a number, from a place on.
    #[tactic(auto, using(crate::proofs::FromLaws::place_from_take))]
    pub fn place_from(&self, at: usize, most: u32) -> Option<usize>
        requires { most < never }
        ensures { result ≡ place_from at most self.now }
    {
        find_from(self.lowest.as_slice(), &self.above, at, most)
    }

    /// The number at a place, where there is one.
    #[tactic(auto, using(crate::proofs::FromLaws::get_take, crate::proofs::FromLaws::get_past))]
    pub fn number(&self, at: usize) -> Option<u32>
        ensures { result ≡ slice_get self.now at }
    {
        if at < self.count {
            Some(self.lowest.as_slice()[at])
        } else {
            None
        }
    }

    /// Puts another number at a place. It takes no memory.
    #[tactic(auto, using(crate::proofs::RoomLaws::set_take, crate::proofs::RoomLaws::set_never))]
    pub fn put(&mut self, at: usize, number: u32)
        requires { at < length self.old }
        ensures { self.new ≡ slice_set self.old at number }
    {
        put(&mut self.lowest, &mut self.above, at, number);
    }

    /// Puts a number at the end. A refused call leaves the numbers as they were.
    #[tactic(auto, using(crate::proofs::RoomLaws::set_next, crate::proofs::RoomLaws::next_never))]
    pub fn push(&mut self, alloc: Global, number: u32) -> Result<(), NoMemory>
        ensures ok { OnOk result (self.new ≡ self.old ++ number ∷ []) }
        ensures err { OnErr result (self.new ≡ self.old) }
    {
        make_room(alloc, self.count, &mut self.lowest, &mut self.above)?;
        let count = next(self.count, self.lowest.as_slice());
        put(&mut self.lowest, &mut self.above, self.count, number);
        self.count = count;
        Ok(())
    }
}
