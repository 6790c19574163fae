//! The locals in force with their slots, found by name without a search.
ghost use Rattle.std.specs.Prelude.{◌≡◌, ◌++◌, ◌∷◌, [], None, length, take, drop, OnOk, OnErr};
ghost use Rattle.std.specs.Option.{option_copied};
ghost use Rattle.bds_check_names.specs.Scopes.{last_type, any_named};
ghost use Rattle.bds_gen_expr.specs.Indexes.{number_at_place};
ghost use Rattle.bds_gen_expr.specs.Numbers.{last_number, variables_of};

use crate::scope::Numbered;
use bds_check_names::{Locals as Variables, Variable, variable};
use bds_value::{ByteText, Listed, NoMemory, Ty};
use std::alloc::Global;
use std::marker::Model;

/// The locals in force, the innermost last.
#[derive(Drop)]
pub struct Locals {
    numbered: Listed<Numbered>,
    variables: Variables,
}

impl Model for Locals {
    ghost use Rattle.std.specs.Prelude.{◌≡◌, List};
    ghost use Rattle.std.specs.Coded.{coded_list};
    ghost use Rattle.bds_gen_expr.specs.declared.scope.Numbered.{Numbered};
    ghost use Rattle.bds_gen_expr.specs.contracts.scope.Numbered as code;
    ghost use Rattle.bds_gen_expr.specs.Numbers.{variables_of};

    ghost Value = { List Numbered };

    ghost coded = { coded_list code.the_row.coded };

    ghost view = { λ it. it.numbered };

    ghost invariant = { λ it. it.variables ≡ variables_of it.numbered };
}

impl Locals {
    pub fn new(alloc: Global) -> Locals
        ensures { result ≡ [] }
    {
        Locals {
            numbered: Listed::new(alloc),
            variables: Variables::new(alloc),
        }
    }

    /// How many locals are in force.
    pub fn len(&self) -> usize
        ensures { result ≡ length self.now }
    {
        self.numbered.len()
    }

    pub fn as_slice(&self) -> &[Numbered]
        ensures { result.now ≡ self.now }
    {
        self.numbered.as_slice()
    }

    /// The type of the innermost local of a name.
    pub fn type_of(&self, name: &ByteText) -> Option<&Ty>
        ensures { option_copied result ≡ last_type name.now (variables_of self.now) None }
    {
        self.variables.type_of(name)
    }

    /// The slot of the innermost local of a name.
    pub fn slot_of(&self, name: &ByteText) -> Option<u16>
        ensures { result ≡ last_number name.now self.now None }
    {
        number_at_place(self.numbered.as_slice(), self.variables.place(name))
    }

    /// One of the locals behind so many has the name.
    pub fn is_named_behind(&self, start: usize, name: &ByteText) -> bool
        ensures { result ≡ any_named name.now (variables_of (drop start self.now)) }
    {
        self.variables.is_named_behind(start, name)
    }

    /// One more local, which hides those of its name.
    pub fn push(&mut self, alloc: Global, local: Numbered) -> Result<(), NoMemory>
        ensures ok { OnOk result (self.new ≡ self.old ++ local ∷ []) }
        ensures err { OnErr result (self.new ≡ self.old) }
    {
        let copied = variable(alloc, &local.variable.name, &local.variable.ty)?;
        self.numbered.push(local)?;
        match self.variables.push(alloc, copied) {
            Ok(()) => Ok(()),
            Err(NoMemory) => {
                self.numbered.pop();
                Err(NoMemory)
            }
        }
    }

    /// Takes away the locals behind so many.
    pub fn truncate(&mut self, count: usize)
        ensures { self.new ≡ take count self.old }
    {
        self.variables.truncate(count);
        cut(&mut self.numbered, count);
    }
}

fn number_at_place(locals: &[Numbered], place: usize) -> Option<u16>
    ensures { result ≡ number_at_place locals.now place }
{
    if place == 0 {
        return None;
    }
    match locals.get(place - 1) {
        Some(local) => Some(local.number),
        None => None,
    }
}

fn cut(locals: &mut Listed<Numbered>, count: usize)
    ensures { locals.new ≡ take count locals.old }
{
    while count < locals.len() {
        locals.pop();
    }
}
