//! The globals of a script with their types, found by name through an index.
ghost use Rattle.std.specs.Prelude.{◌≡◌, [], ◌∷◌, ◌++◌, None, map, OnOk, OnErr};
ghost use Rattle.std.specs.Option.{option_copied};
ghost use Rattle.std.specs.Map.{lookup};
ghost use Rattle.std.specs.Str.{bytes_eq};
ghost use Rattle.bds_check_names.specs.Scopes as scopes;

use bds_value::{ByteText, NoMemory, Ty};
use indexmap::IndexMap;
use std::alloc::Global;
use std::marker::Model;

/// The globals in the order of the text, of one name the first. A name is found without a search.
#[derive(Drop)]
pub struct Globals {
    types: IndexMap<Vec<u8>, Ty>,
}

impl Model for Globals {
    ghost use Rattle.std.specs.Prelude.{List, map};
    ghost use Rattle.std.specs.Coded.{coded_list};
    ghost use Rattle.bds_check_names.specs.declared.names.Variable.{Variable};
    ghost use Rattle.bds_check_names.specs.contracts.names.Variable as code;

    ghost Value = { List Variable };

    ghost coded = { coded_list code.the_row.coded };

    ghost view = { λ g. map (λ e. record { name = e.0.items; ty = e.1 }) g.types.entries };
}

impl Globals {
    pub fn new(alloc: Global) -> Globals
        ensures { result ≡ [] }
    {
        Globals {
            types: IndexMap::new(alloc),
        }
    }

    /// The type of the global of a name.
    pub fn type_of(&self, name: &ByteText) -> Option<&Ty>
        ensures { option_copied result ≡ scopes.first_type name.now self.now }
    {
        self.types.get(name.as_slice())
    }

    pub fn has(&self, name: &ByteText) -> bool
        ensures { result ≡ scopes.any_named name.now self.now }
    {
        self.types.contains_key(name.as_slice())
    }

    /// One more global; where there is one of the name already, that one counts.
    pub fn declare(&mut self, alloc: Global, name: &ByteText, ty: Ty) -> Result<(), NoMemory>
        ensures ok { OnOk result (self.new ≡ scopes.declare_in 0 (scopes.variable name.now ty) self.old) }
        ensures err { OnErr result (self.new ≡ self.old) }
    {
        if self.has(name) {
            return Ok(());
        }
        put(alloc, &mut self.types, name.as_slice(), ty)
    }
}

fn put(
    alloc: Global,
    types: &mut IndexMap<Vec<u8>, Ty>,
    name: &[u8],
    ty: Ty,
) -> Result<(), NoMemory>
    requires { lookup (λ k. bytes_eq name.now k.items) types.old.entries ≡ None }
    ensures ok { OnOk result (map (λ e. scopes.variable e.0.items e.1) types.new.entries ≡ map (λ e. scopes.variable e.0.items e.1) types.old.entries ++ scopes.variable name.now ty ∷ []) }
    ensures err { OnErr result (types.new.entries ≡ types.old.entries) }
{
    let name = Vec::from_slice(alloc, name)?;
    types.insert(name, ty)?;
    Ok(())
}
