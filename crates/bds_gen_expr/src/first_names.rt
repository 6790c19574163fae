//! Names in their order, of which the first of a name is found without a search.
ghost use Rattle.std.specs.Prelude.{◌≡◌, ◌++◌, ◌∷◌, [], ℕ, List, None, OnOk, OnErr};
ghost use Rattle.std.specs.Option.{option_or};
ghost use Rattle.bds_check_names.specs.Indexes.{place_in, place_if};
ghost use Rattle.bds_gen_expr.specs.Indexes.{first_place};

use bds_value::{ByteText, Listed, NoMemory};
use indexmap::IndexMap;
use std::alloc::Global;
use std::marker::Model;

/// Names in their order.
#[derive(Drop)]
pub struct FirstNames {
    names: Listed<ByteText>,
    /// The place of the first of each name.
    places: IndexMap<Vec<u8>, usize>,
}

impl Model for FirstNames {
    ghost use Rattle.std.specs.Prelude.{ℕ, List};
    ghost use Rattle.std.specs.Coded.{coded_list, coded_ℕ};
    ghost use Rattle.bds_gen_expr.specs.Indexes.{IsFirstIndex};

    ghost Value = { List (List ℕ) };

    ghost coded = { coded_list (coded_list coded_ℕ) };

    ghost view = { λ it. it.names };

    ghost invariant = { λ it. IsFirstIndex it.names it.places.entries };
}

impl FirstNames {
    pub fn new(alloc: Global) -> FirstNames
        ensures { result ≡ [] }
    {
        FirstNames {
            names: Listed::new(alloc),
            places: IndexMap::new(alloc),
        }
    }

    /// The place of the first of a name.
    pub fn place(&self, name: &ByteText) -> Option<usize>
        ensures { result ≡ first_place name.now self.now 0 }
    {
        match self.places.get(name.as_slice()) {
            Some(place) => Some(*place),
            None => None,
        }
    }

    /// One more name.
    pub fn push(&mut self, alloc: Global, name: ByteText) -> Result<(), NoMemory>
        ensures ok { OnOk result (self.new ≡ self.old ++ name ∷ []) }
        ensures err { OnErr result (self.new ≡ self.old) }
    {
        let place = self.names.len();
        let key = Vec::from_slice(alloc, name.as_slice())?;
        self.names.push(name)?;
        match put_first(&mut self.places, key, place) {
            Ok(()) => Ok(()),
            Err(NoMemory) => {
                self.names.pop();
                Err(NoMemory)
            }
        }
    }
}

/// Where the name has a place already, that one counts.
fn put_first(
    places: &mut IndexMap<Vec<u8>, usize>,
    name: Vec<u8>,
    place: usize,
) -> Result<(), NoMemory>
    ensures ok { OnOk result ((x : List ℕ) → place_in places.new.entries x ≡ option_or (place_in places.old.entries x) (place_if x name.items place)) }
    ensures err { OnErr result (places.new.entries ≡ places.old.entries) }
{
    if places.contains_key(&name) {
        return Ok(());
    }
    put(places, name, place)
}

fn put(places: &mut IndexMap<Vec<u8>, usize>, name: Vec<u8>, place: usize) -> Result<(), NoMemory>
    requires { place_in places.old.entries name.items ≡ None }
    ensures ok { OnOk result ((x : List ℕ) → place_in places.new.entries x ≡ option_or (place_in places.old.entries x) (place_if x name.items place)) }
    ensures err { OnErr result (places.new.entries ≡ places.old.entries) }
{
    places.insert(name, place)?;
    Ok(())
}
