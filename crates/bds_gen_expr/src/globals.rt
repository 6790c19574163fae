//! The globals with their numbers, found by name without a search.
ghost use Rattle.std.specs.Prelude.{◌≡◌, ◌++◌, ◌∷◌, [], OnOk, OnErr, slice_get};
ghost use Rattle.std.specs.Option.{option_copied, option_map};
ghost use Rattle.bds_check_names.specs.Scopes.{first_type};
ghost use Rattle.bds_gen_expr.specs.Numbers.{first_number, variables_of};

use crate::first_names::FirstNames;
use crate::scope::Numbered;
use bds_value::{ByteText, Listed, NoMemory, Ty, copy_text};
use std::alloc::Global;
use std::marker::Model;

/// The globals, of one name the first.
#[derive(Drop)]
pub struct Globals {
    numbered: Listed<Numbered>,
    names: FirstNames,
}

impl Model for Globals {
    ghost use Rattle.std.specs.Prelude.{◌≡◌, List};
    ghost use Rattle.std.specs.Coded.{coded_list};
    ghost use Rattle.bds_gen_expr.specs.declared.scope.Numbered.{Numbered};
    ghost use Rattle.bds_gen_expr.specs.contracts.scope.Numbered as code;
    ghost use Rattle.bds_gen_expr.specs.Indexes.{names_of};

    ghost Value = { List Numbered };

    ghost coded = { coded_list code.the_row.coded };

    ghost view = { λ it. it.numbered };

    ghost invariant = { λ it. it.names ≡ names_of it.numbered };
}

impl Globals {
    pub fn new(alloc: Global) -> Globals
        ensures { result ≡ [] }
    {
        Globals {
            numbered: Listed::new(alloc),
            names: FirstNames::new(alloc),
        }
    }

    pub fn as_slice(&self) -> &[Numbered]
        ensures { result.now ≡ self.now }
    {
        self.numbered.as_slice()
    }

    /// The type of the first global of a name.
    pub fn type_of(&self, name: &ByteText) -> Option<&Ty>
        ensures { option_copied result ≡ first_type name.now (variables_of self.now) }
    {
        match self.names.place(name) {
            Some(place) => type_at(self.numbered.as_slice(), place),
            None => None,
        }
    }

    /// The number of the first global of a name.
    pub fn number_of(&self, name: &ByteText) -> Option<u16>
        ensures { result ≡ first_number name.now self.now }
    {
        match self.names.place(name) {
            Some(place) => number_at(self.numbered.as_slice(), place),
            None => None,
        }
    }

    /// One more global; where there is one of the name already, that one counts.
    pub fn push(&mut self, alloc: Global, global: Numbered) -> Result<(), NoMemory>
        ensures ok { OnOk result (self.new ≡ self.old ++ global ∷ []) }
        ensures err { OnErr result (self.new ≡ self.old) }
    {
        let name = copy_text(alloc, &global.variable.name)?;
        self.numbered.push(global)?;
        match self.names.push(alloc, name) {
            Ok(()) => Ok(()),
            Err(NoMemory) => {
                self.numbered.pop();
                Err(NoMemory)
            }
        }
    }
}

fn type_at(globals: &[Numbered], place: usize) -> Option<&Ty>
    ensures { option_copied result ≡ option_map (λ g. g.variable.ty) (slice_get globals.now place) }
{
    match globals.get(place) {
        Some(global) => Some(&global.variable.ty),
        None => None,
    }
}

fn number_at(globals: &[Numbered], place: usize) -> Option<u16>
    ensures { result ≡ option_map (λ g. g.number) (slice_get globals.now place) }
{
    match globals.get(place) {
        Some(global) => Some(global.number),
        None => None,
    }
}
