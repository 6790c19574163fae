//! The place of a file, found without a search.
ghost use Rattle.std.specs.Prelude.{◌≡◌, IfOk};
ghost use Rattle.bds_goal.specs.Goals.{place_from};
ghost use Rattle.bds_goal.specs.Indexes.{ArePlaces};

use bds_rules::{FileNumbers, put_first};
use bds_value::{ByteText, NoMemory};
use indexmap::IndexMap;
use std::alloc::Global;
use std::marker::Model;

/// The places of files.
fn places_of(alloc: Global, files: &[ByteText]) -> Result<FileNumbers, NoMemory>
    ensures { IfOk result (λ index. ArePlaces files.now index.entries) }
{
    let mut index = IndexMap::new(alloc);
    for (i, file) in files.iter().enumerate() {
        put_first(alloc, &mut index, file.as_slice(), i)?;
    }
    Ok(index)
}

/// Files, and their places.
#[derive(Drop)]
pub(crate) struct IndexedFiles<'a> {
    files: &'a [ByteText],
    places: FileNumbers,
}

impl<'a> Model for IndexedFiles<'a> {
    ghost use Rattle.std.specs.Prelude.{List, ℕ};
    ghost use Rattle.bds_goal.specs.Indexes.{ArePlaces};

    ghost Value = { List (List ℕ) };

    ghost view = { λ f. f.files.now };

    ghost invariant = { λ f. ArePlaces f.files.now f.places.entries };
}

impl<'a> IndexedFiles<'a> {
    pub(crate) fn of(alloc: Global, files: &'a [ByteText]) -> Result<IndexedFiles<'a>, NoMemory>
        ensures { IfOk result (λ indexed. indexed ≡ files.now) }
    {
        let places = places_of(alloc, files)?;
        Ok(IndexedFiles { files, places })
    }

    pub(crate) fn as_slice(&self) -> &'a [ByteText]
        ensures { result.now ≡ self.now }
    {
        self.files
    }

    /// The first place of a file.
    pub(crate) fn place_of(&self, file: &[u8]) -> Option<usize>
        ensures { result ≡ place_from 0 self.now file.now }
    {
        match self.places.get(file) {
            Some(place) => Some(*place),
            None => None,
        }
    }
}
