//! The code of expressions, behind what a function has.
#![tactic(auto)]

mod callees;
mod exprs;
mod first_names;
mod globals;
mod locals;
mod methods;
mod names;
mod operators;
mod piece_kinds;
mod pieces;
mod scope;
mod writing;

pub use callees::Callees;
pub use exprs::{write_all, write_expr, write_files};
pub use globals::Globals;
pub use locals::Locals;
pub use methods::write_listing;
pub use names::{Names, gen_expr, scope_of};
pub use pieces::write_pieces;
pub use scope::{Callee, Numbered, Scope, function_number, load, type_in};
pub use writing::{
    act, begin_other, counted, end_at, forget, mark, mark_with, patch, place_behind, push_ty,
};
