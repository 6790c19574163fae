//! The rules of the checker: which rule a node breaks whose parts have their types.
#![tactic(auto)]

mod act_rules;
mod breaks;
mod ends;
mod laws;
mod pieces;
mod place_rules;
mod rules;
mod setting_rules;
mod stmt_rules;
mod switch_rules;
mod typing;

pub use act_rules::act_rule;
pub use breaks::{or_deep, rule_of_form};
pub use ends::block_ends;
pub use laws::missing_names_are_as_written;
pub use pieces::sys_rule;
pub use place_rules::{place_rule, place_ty};
pub use rules::{CheckFault, Rule};
pub use setting_rules::{any_dependency, see, setting_rule};
pub use stmt_rules::{right_type, small_rule, stmt_rule};
pub use typing::{asked_list_item, asked_map_item, type_of_form};
