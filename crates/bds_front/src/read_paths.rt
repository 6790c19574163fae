//! The paths of the files that were read, found without a search.
ghost use Rattle.std.specs.Prelude.{◌≡◌, ◌<◌, ◌++◌, [], ◌∷◌, false, Some, IfOk, OnOk, length, map, slice_get};
ghost use Rattle.bds_check_typing.specs.Files.{was_read};

use bds_value::{ByteText, Listed, NoMemory, Texts};
use indexmap::IndexSet;
use std::alloc::Global;
use std::marker::Model;

/// The paths of the files that were read, in the order of reading.
#[derive(Drop)]
pub struct ReadPaths {
    paths: IndexSet<Vec<u8>>,
}

impl Model for ReadPaths {
    ghost use Rattle.std.specs.Prelude.{ℕ, List, map};
    ghost use Rattle.std.specs.Coded.{coded_list, coded_ℕ};

    ghost Value = { List (List ℕ) };

    ghost coded = { coded_list (coded_list coded_ℕ) };

    ghost view = { λ r. map (λ k. k.items) r.paths.keys };
}

impl ReadPaths {
    pub fn new(alloc: Global) -> ReadPaths
        ensures { result ≡ [] }
    {
        ReadPaths {
            paths: IndexSet::new(alloc),
        }
    }

    /// How many files were read.
    pub fn len(&self) -> usize
        ensures { result ≡ length self.now }
    {
        self.paths.len()
    }

    pub fn has(&self, path: &ByteText) -> bool
        ensures { result ≡ was_read path.now self.now }
    {
        self.paths.contains(path.as_slice())
    }

    /// One more path.
    pub fn push(&mut self, alloc: Global, path: &ByteText) -> Result<(), NoMemory>
        requires { was_read path.now self.old ≡ false }
        ensures { OnOk result (self.new ≡ self.old ++ path.now ∷ []) }
    {
        put(alloc, &mut self.paths, path.as_slice())
    }

    /// The path of the file of a number.
    pub fn at(&self, alloc: Global, file: u32) -> Result<ByteText, NoMemory>
        requires { file < length self.now }
        ensures { IfOk result (λ path. slice_get self.now file ≡ Some path) }
    {
        path_at(alloc, self.paths.as_slice(), file)
    }

    /// A copy of all.
    pub fn texts(&self, alloc: Global) -> Result<Texts, NoMemory>
        ensures { IfOk result (λ texts. texts ≡ self.now) }
    {
        copies(alloc, self.paths.as_slice())
    }
}

fn put(alloc: Global, paths: &mut IndexSet<Vec<u8>>, path: &[u8]) -> Result<(), NoMemory>
    requires { was_read path.now (map (λ k. k.items) paths.old.keys) ≡ false }
    ensures { OnOk result (map (λ k. k.items) paths.new.keys ≡ map (λ k. k.items) paths.old.keys ++ path.now ∷ []) }
{
    let path = Vec::from_slice(alloc, path)?;
    paths.insert(path)?;
    Ok(())
}

fn copy(alloc: Global, path: &[u8]) -> Result<ByteText, NoMemory>
    ensures { IfOk result (λ text. text ≡ path.now) }
{
    Ok(Listed::from_vec(Vec::from_slice(alloc, path)?))
}

fn path_at(alloc: Global, paths: &[Vec<u8>], file: u32) -> Result<ByteText, NoMemory>
    requires { file < length paths.now }
    ensures { IfOk result (λ path. slice_get (map (λ k. k.items) paths.now) file ≡ Some path) }
{
    copy(alloc, paths[file as usize].as_slice())
}

fn copies(alloc: Global, paths: &[Vec<u8>]) -> Result<Texts, NoMemory>
    ensures { IfOk result (λ texts. texts ≡ map (λ k. k.items) paths.now) }
{
    let mut texts = Listed::new(alloc);
    for path in paths {
        texts.push(copy(alloc, path.as_slice())?)?;
    }
    Ok(texts)
}
