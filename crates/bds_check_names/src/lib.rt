//! What the checker knows: types and rows of methods, the names in force, and the slots of a function.
#![tactic(auto)]

mod functions;
mod globals;
mod locals;
mod names;
mod piece_kinds;
mod rows;
mod scopes;
mod slots;
mod types;

pub use functions::Functions;
pub use globals::Globals;
pub use locals::Locals;
pub use names::{Asked, Head, Names, Seen, Site, Variable};
pub use piece_kinds::{PieceKind, piece_kind};
pub use rows::{Row, row_of};
pub use scopes::{
    apart, declare_global, declare_local, found, in_function, in_loop, in_switch, inner,
    is_declared, is_missing, is_untyped, is_value, push_local, top, type_named, variable,
};
pub use slots::{are_too_many, block_slots, has_too_many, parts_globals, parts_slots};
pub use types::{
    common_ty, differ, is_known, is_list, is_map, lacks_files, list_item, list_of, list_part,
    map_item, map_of, map_part, sum_ty,
};
