//! Which globals words can set.
ghost use Rattle.std.specs.Prelude.{◌≡◌};
ghost use Rattle.bds_check_words.specs.SetNames.{kind_named, kind_of};

use bds_check_names::Globals;
use bds_value::{ByteText, Ty, same_ty};

/// What words give a global, by its type.
#[derive(Clone, Copy, PartialEq, Eq)]
pub enum Kind {
    /// A `bool`.
    Truth,
    /// An `int`.
    Number,
    /// A `string`.
    Text,
    /// A `string[]`.
    Texts,
}

fn kind_of(ty: &Ty) -> Option<Kind>
    ensures { result ≡ kind_of ty.now }
{
    match ty {
        Ty::Bool => Some(Kind::Truth),
        Ty::Int => Some(Kind::Number),
        Ty::Text => Some(Kind::Text),
        Ty::List(item) => if same_ty(item.get(), &Ty::Text) {
            Some(Kind::Texts)
        } else {
            None
        },
        Ty::Map(_) | Ty::Void => None,
    }
}

/// What words give the global of a name, where they can set it.
pub fn kind_named(globals: &Globals, name: &ByteText) -> Option<Kind>
    ensures { result ≡ kind_named globals.now name.now }
{
    if name.as_slice() == b"args".as_slice() {
        return None;
    }
    match globals.type_of(name) {
        Some(ty) => kind_of(ty),
        None => None,
    }
}
