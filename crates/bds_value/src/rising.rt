//! Pairs whose keys rise.
ghost use Rattle.std.specs.Prelude.{◌≡◌, ◌<◌, ℕ, List, [], length, Some, None, IsSome, IfOk, OnOk, OnErr};
ghost use Rattle.std.specs.Option.{option_copied};
ghost use Rattle.bds_value.specs.Order.{KeysRise};
ghost use Rattle.bds_value.specs.Path.{at_key, insert_key, set_key, without_key};

use crate::listed::NoMemory;
use crate::value::ByteText;
use std::alloc::Global;
use std::collections::BTreeMap;
use std::collections::btree_map::Iter;
use std::marker::Model;
use std::mem;

/// Keys with their values, each key behind the one before it, so that each stands once: a `BTreeMap` that contracts see as the list of its pairs.
#[derive(Debug, Drop)]
pub struct Rising<T> {
    pairs: BTreeMap<ByteText, T>,
}

impl<T> Model for Rising<T> {
    ghost use Rattle.std.specs.Prelude.{ℕ, List};
    ghost use Rattle.std.specs.Coded.{coded_list, coded_ℕ, coded×};

    ghost Value = { List (List ℕ × T) };

    ghost coded = { coded_list (coded× (coded_list coded_ℕ) T.code) };

    ghost view = { λ it. it.pairs.entries };
}

impl<T> Rising<T> {
    pub fn new(alloc: Global) -> Rising<T>
        ensures { result ≡ [] }
    {
        Rising {
            pairs: BTreeMap::new(alloc),
        }
    }

    /// The pairs in the order of their keys.
    pub fn iter(&self) -> Iter<'_, ByteText, T>
        ensures { result ≡ self.now }
    {
        self.pairs.iter()
    }

    /// The keys rise: a law, which does nothing.
    pub fn rises(&self)
        ensures { KeysRise self.now }
    {
        let _count = self.pairs.len();
    }

    /// How many pairs there are.
    pub fn len(&self) -> usize
        ensures { result ≡ length self.now }
    {
        self.pairs.len()
    }

    /// The value at a key, if it is there.
    pub fn get(&self, key: &ByteText) -> Option<&T>
        ensures { option_copied result ≡ at_key key.now self.now }
    {
        self.pairs.get(key)
    }
}

impl<T: Drop> Rising<T> {
    /// Pairs whose keys rise.
    pub fn from_vec(alloc: Global, pairs: Vec<(ByteText, T)>) -> Result<Rising<T>, NoMemory>
        requires { KeysRise pairs.items }
        ensures { IfOk result (λ made. made ≡ pairs.items) }
    {
        let mut made = Rising::new(alloc);
        let mut left = pairs;
        while let Some((key, value)) = left.pop() {
            made.insert(key, value)?;
        }
        Ok(made)
    }

    /// Takes the pair at a key away, where it is there.
    pub fn remove(&mut self, key: &ByteText)
        ensures { self.new ≡ without_key key.now self.old }
    {
        self.pairs.remove(key);
    }

    /// Adds a pair whose key isn't there. A refused call leaves the pairs as they were.
    pub fn insert(&mut self, key: ByteText, value: T) -> Result<(), NoMemory>
        requires { at_key key self.old ≡ None }
        ensures ok { OnOk result (self.new ≡ insert_key key value self.old) }
        ensures err { OnErr result (self.new ≡ self.old) }
    {
        self.put(key, value)
    }

    /// Puts a value at a key, with one search: it is added where it isn't there. A refused call leaves the pairs as they were.
    pub fn put(&mut self, key: ByteText, value: T) -> Result<(), NoMemory>
        ensures there { IsSome (at_key key self.old) → OnOk result (self.new ≡ set_key key value self.old) }
        ensures gone { at_key key self.old ≡ None → OnOk result (self.new ≡ insert_key key value self.old) }
        ensures err { OnErr result (self.new ≡ self.old) }
    {
        match self.pairs.insert(key, value) {
            Ok(_) => Ok(()),
            Err(_) => Err(NoMemory),
        }
    }

    /// Puts another value at a key that is there, and gives the one that it had.
    pub fn swap(&mut self, key: &ByteText, value: T) -> T
        requires { IsSome (at_key key.now self.old) }
        ensures new { self.new ≡ set_key key.now value self.old }
        ensures old { at_key key.now self.old ≡ Some result }
    {
        match self.pairs.get_mut(key) {
            Some(held) => mem::replace(held, value),
            None => unreachable!(),
        }
    }
}
