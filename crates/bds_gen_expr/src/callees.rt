//! The functions with their numbers, found by name without a search.
ghost use Rattle.std.specs.Prelude.{◌≡◌, ◌++◌, ◌∷◌, [], OnOk, OnErr, slice_get};
ghost use Rattle.std.specs.Option.{option_map};
ghost use Rattle.bds_gen_expr.specs.Numbers.{first_callee};

use crate::first_names::FirstNames;
use crate::scope::Callee;
use bds_value::{ByteText, Listed, NoMemory, copy_text};
use std::alloc::Global;
use std::marker::Model;

/// The functions that can be called, of one name the first.
#[derive(Drop)]
pub struct Callees {
    callees: Listed<Callee>,
    names: FirstNames,
}

impl Model for Callees {
    ghost use Rattle.std.specs.Prelude.{◌≡◌, List};
    ghost use Rattle.std.specs.Coded.{coded_list};
    ghost use Rattle.bds_gen_expr.specs.declared.scope.Callee.{Callee};
    ghost use Rattle.bds_gen_expr.specs.contracts.scope.Callee as code;
    ghost use Rattle.bds_gen_expr.specs.Indexes.{callee_names};

    ghost Value = { List Callee };

    ghost coded = { coded_list code.the_row.coded };

    ghost view = { λ it. it.callees };

    ghost invariant = { λ it. it.names ≡ callee_names it.callees };
}

impl Callees {
    pub fn new(alloc: Global) -> Callees
        ensures { result ≡ [] }
    {
        Callees {
            callees: Listed::new(alloc),
            names: FirstNames::new(alloc),
        }
    }

    /// The number of the first function of a name.
    pub fn number_of(&self, name: &ByteText) -> Option<u32>
        ensures { result ≡ first_callee name.now self.now }
    {
        match self.names.place(name) {
            Some(place) => number_at(self.callees.as_slice(), place),
            None => None,
        }
    }

    /// One more function; where there is one of the name already, that one counts.
    pub fn push(&mut self, alloc: Global, callee: Callee) -> Result<(), NoMemory>
        ensures ok { OnOk result (self.new ≡ self.old ++ callee ∷ []) }
        ensures err { OnErr result (self.new ≡ self.old) }
    {
        let name = copy_text(alloc, &callee.name)?;
        self.callees.push(callee)?;
        match self.names.push(alloc, name) {
            Ok(()) => Ok(()),
            Err(NoMemory) => {
                self.callees.pop();
                Err(NoMemory)
            }
        }
    }
}

fn number_at(callees: &[Callee], place: usize) -> Option<u32>
    ensures { result ≡ option_map (λ c. c.number) (slice_get callees.now place) }
{
    match callees.get(place) {
        Some(callee) => Some(callee.number),
        None => None,
    }
}
