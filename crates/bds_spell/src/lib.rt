//! The tokens that a script spells, and whether it is legal.
#![tactic(auto)]

mod fit_expr;
mod fit_parts;
mod fit_stmt;
mod spell_expr;
mod spell_heads;
mod spell_parts;
mod spell_stmt;

pub use fit_stmt::legal;
pub use spell_stmt::spell;
