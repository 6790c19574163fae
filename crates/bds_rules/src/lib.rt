//! Rules: how files are made of others.
#![tactic(auto)]

mod dates;
mod fields;
mod indexes;
mod judge;
mod laws;
mod makers;
mod rule;
mod table;

pub use dates::out_of_date;
pub use fields::read_rules;
pub use indexes::{FileNumbers, put_first};
pub use laws::{
    files_are_compared, rule_makes_its_files, rules_are_read_back, unfit_rules_are_told,
};
pub use rule::{Rule, RuleFault, Rules, RulesFault};
pub use table::RuleTable;
