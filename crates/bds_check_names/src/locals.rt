//! The locals in force, found by name; each keeps the place of the one of its name that it hides.
ghost use Rattle.std.specs.Prelude.{◌≡◌, ℕ, ◌-◌, ◌++◌, ◌∷◌, [], List, None, Some, is_some, true, drop, take, length, slice_get, OnOk, OnErr, if◌then◌else◌};
ghost use Rattle.std.specs.Option.{option_copied};
ghost use Rattle.std.specs.Str.{bytes_eq};
ghost use Rattle.bds_check_names.specs.Indexes as indexes;
ghost use Rattle.bds_check_names.specs.Scopes as scopes;
ghost use Rattle.bds_check_names.specs.Slots as slots;

use crate::names::Variable;
use bds_value::{ByteText, Listed, NoMemory, Ty};
use indexmap::IndexMap;
use std::alloc::Global;
use std::marker::Model;

/// A local, and the place of the last one of its name before it, counted from 1; 0 where there is none.
#[derive(Drop)]
struct Local {
    variable: Variable,
    earlier: usize,
}

/// The locals in force, the innermost last. A name is found without a search.
#[derive(Drop)]
pub struct Locals {
    locals: Listed<Local>,
    /// The place of the last local of each name, counted from 1; 0 where none is in force any more.
    last: IndexMap<Vec<u8>, usize>,
    /// How many aren't hidden by a later one of their name.
    visible: usize,
}

impl Model for Locals {
    ghost use Rattle.std.specs.Prelude.{List};
    ghost use Rattle.std.specs.Coded.{coded_list};
    ghost use Rattle.bds_check_names.specs.declared.names.Variable.{Variable};
    ghost use Rattle.bds_check_names.specs.contracts.names.Variable as code;
    ghost use Rattle.bds_check_names.specs.Indexes.{variables_of, IsIndexed};

    ghost Value = { List Variable };

    ghost coded = { coded_list code.the_row.coded };

    ghost view = { λ it. variables_of it.locals };

    ghost invariant = { λ it. IsIndexed it.locals it.last.entries it.visible };
}

impl Locals {
    pub fn new(alloc: Global) -> Locals
        ensures { result ≡ [] }
    {
        Locals {
            locals: Listed::new(alloc),
            last: IndexMap::new(alloc),
            visible: 0,
        }
    }

    /// How many locals are in force.
    pub fn len(&self) -> usize
        ensures { result ≡ length self.now }
    {
        self.locals.len()
    }

    /// The type of the innermost local of a name.
    pub fn type_of(&self, name: &ByteText) -> Option<&Ty>
        ensures { option_copied result ≡ scopes.last_type name.now self.now None }
    {
        let place = place_of(&self.last, name.as_slice());
        type_at(self.locals.as_slice(), place)
    }

    /// The place of the innermost local of a name, counted from 1; 0 where there is none.
    pub fn place(&self, name: &ByteText) -> usize
        ensures { result ≡ indexes.last_place name.now self.now }
    {
        place_of(&self.last, name.as_slice())
    }

    /// One of the locals behind so many has the name.
    pub fn is_named_behind(&self, start: usize, name: &ByteText) -> bool
        ensures { result ≡ scopes.any_named name.now (drop start self.now) }
    {
        start < place_of(&self.last, name.as_slice())
    }

    /// How many locals aren't hidden by a later one of their name.
    pub fn visible(&self) -> usize
        ensures { result ≡ slots.visible self.now }
    {
        self.visible
    }

    /// One more local, which hides those of its name.
    pub fn push(&mut self, alloc: Global, variable: Variable) -> Result<(), NoMemory>
        ensures ok { OnOk result (self.new ≡ self.old ++ variable ∷ []) }
        ensures err { OnErr result (self.new ≡ self.old) }
    {
        let name = Vec::from_slice(alloc, variable.name.as_slice())?;
        let earlier = place_of(&self.last, name.as_slice());
        self.locals.push(Local { variable, earlier })?;
        let place = self.locals.len();
        match put_place(&mut self.last, name, place) {
            Ok(()) => {
                if earlier == 0 {
                    self.visible += 1;
                }
                Ok(())
            }
            Err(NoMemory) => {
                self.locals.pop();
                Err(NoMemory)
            }
        }
    }

    /// One more local of a block, which began behind so many; where it has one of the name already, that one counts.
    pub fn declare_in(
        &mut self,
        alloc: Global,
        start: usize,
        variable: Variable,
    ) -> Result<(), NoMemory>
        ensures ok { OnOk result (self.new ≡ scopes.declare_in start variable self.old) }
        ensures err { OnErr result (self.new ≡ self.old) }
    {
        if self.is_named_behind(start, &variable.name) {
            return Ok(());
        }
        self.push(alloc, variable)
    }

    fn pop(&mut self)
        ensures { self.new ≡ take (length self.old - 1) self.old }
    {
        if let Some(local) = self.locals.pop() {
            let Local { variable, earlier } = local;
            put_back(&mut self.last, variable.name.into_vec(), earlier);
            if earlier == 0 {
                self.visible -= 1;
            }
        }
    }

    /// Takes away the locals behind so many.
    pub fn truncate(&mut self, count: usize)
        ensures { self.new ≡ take count self.old }
    {
        while count < self.len() {
            self.pop();
        }
    }
}

fn place_of(last: &IndexMap<Vec<u8>, usize>, name: &[u8]) -> usize
    ensures { result ≡ indexes.place_or_none last.now.entries name.now }
{
    match last.get(name) {
        Some(place) => *place,
        None => 0,
    }
}

fn type_at(locals: &[Local], place: usize) -> Option<&Ty>
    ensures { option_copied result ≡ indexes.type_at (indexes.variables_of locals.now) place }
{
    if place == 0 {
        return None;
    }
    Some(&local_at(locals, place - 1)?.variable.ty)
}

fn local_at(locals: &[Local], index: usize) -> Option<&Local>
    ensures { option_copied result ≡ slice_get locals.now index }
{
    locals.get(index)
}

fn put_place(
    last: &mut IndexMap<Vec<u8>, usize>,
    name: Vec<u8>,
    place: usize,
) -> Result<(), NoMemory>
    ensures ok { OnOk result ((x : List ℕ) → indexes.place_or_none last.new.entries x ≡ (if bytes_eq x name.items then place else indexes.place_or_none last.old.entries x)) }
    ensures err { OnErr result (last.new.entries ≡ last.old.entries) }
    ensures absent { OnErr result (indexes.place_in last.old.entries name.items ≡ None) }
{
    last.insert(name, place)?;
    Ok(())
}

/// Only a new name needs memory.
fn put_back(last: &mut IndexMap<Vec<u8>, usize>, name: Vec<u8>, place: usize)
    requires { is_some (indexes.place_in last.old.entries name.items) ≡ true }
    ensures { (x : List ℕ) → indexes.place_or_none last.new.entries x ≡ (if bytes_eq x name.items then place else indexes.place_or_none last.old.entries x) }
{
    let _ = put_place(last, name, place);
}
