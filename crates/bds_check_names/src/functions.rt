//! The functions of a script, found by name through an index.
ghost use Rattle.std.specs.Prelude.{◌≡◌, List, ℕ, None, IfOk, slice_get, is_some, take};
ghost use Rattle.std.specs.Option.{option_copied, option_or};
ghost use Rattle.bds_check_names.specs.Indexes as indexes;
ghost use Rattle.bds_check_names.specs.Scopes as scopes;

use crate::names::Head;
use bds_value::{ByteText, Listed, NoMemory};
use indexmap::IndexMap;
use std::alloc::Global;
use std::marker::Model;

/// The functions in the order of the text. A name is found without a search.
#[derive(Drop)]
pub struct Functions {
    heads: Listed<Head>,
    places: IndexMap<Vec<u8>, usize>,
}

impl Model for Functions {
    ghost use Rattle.std.specs.Prelude.{List};
    ghost use Rattle.std.specs.Coded.{coded_list};
    ghost use Rattle.bds_check_names.specs.declared.names.Head.{Head};
    ghost use Rattle.bds_check_names.specs.contracts.names.Head as code;
    ghost use Rattle.bds_check_names.specs.Indexes.{IsIndex};

    ghost Value = { List Head };

    ghost coded = { coded_list code.the_row.coded };

    ghost view = { λ f. f.heads };

    ghost invariant = { λ f. IsIndex f.heads f.places.entries };
}

impl Functions {
    /// The functions with these heads.
    pub fn of(alloc: Global, heads: Listed<Head>) -> Result<Functions, NoMemory>
        ensures { IfOk result (λ f. f ≡ heads) }
    {
        let places = index(alloc, heads.as_slice())?;
        Ok(Functions { heads, places })
    }

    pub fn as_slice(&self) -> &[Head]
        ensures { result.now ≡ self.now }
    {
        self.heads.as_slice()
    }

    /// The first function of a name.
    pub fn named(&self, name: &ByteText) -> Option<&Head>
        ensures { option_copied result ≡ scopes.function_named name.now self.now }
    {
        match self.places.get(name.as_slice()) {
            Some(place) => head_at(self.heads.as_slice(), *place),
            None => None,
        }
    }

    /// One of the first functions, so many, has the name.
    pub fn is_among_first(&self, count: usize, name: &ByteText) -> bool
        ensures { result ≡ is_some (scopes.function_named name.now (take count self.now)) }
    {
        match self.places.get(name.as_slice()) {
            Some(place) => *place < count,
            None => false,
        }
    }
}

fn head_at(heads: &[Head], place: usize) -> Option<&Head>
    ensures { option_copied result ≡ slice_get heads.now place }
{
    heads.get(place)
}

fn index(alloc: Global, heads: &[Head]) -> Result<IndexMap<Vec<u8>, usize>, NoMemory>
    ensures { IfOk result (λ places. indexes.IsIndex heads.now places.entries) }
{
    let mut places = IndexMap::new(alloc);
    for (i, head) in heads.iter().enumerate() {
        put_first(alloc, &mut places, head.name.as_slice(), i)?;
    }
    Ok(places)
}

/// Where the name has a place already, that one counts.
fn put_first(
    alloc: Global,
    places: &mut IndexMap<Vec<u8>, usize>,
    name: &[u8],
    place: usize,
) -> Result<(), NoMemory>
    ensures { IfOk result (λ _. (x : List ℕ) → indexes.place_in places.new.entries x ≡ option_or (indexes.place_in places.old.entries x) (indexes.place_if x name.now place)) }
{
    if places.contains_key(name) {
        return Ok(());
    }
    put(alloc, places, name, place)
}

fn put(
    alloc: Global,
    places: &mut IndexMap<Vec<u8>, usize>,
    name: &[u8],
    place: usize,
) -> Result<(), NoMemory>
    requires { indexes.place_in places.old.entries name.now ≡ None }
    ensures { IfOk result (λ _. (x : List ℕ) → indexes.place_in places.new.entries x ≡ option_or (indexes.place_in places.old.entries x) (indexes.place_if x name.now place)) }
{
    let name = Vec::from_slice(alloc, name)?;
    places.insert(name, place)?;
    Ok(())
}
