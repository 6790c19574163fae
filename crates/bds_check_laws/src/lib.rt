//! Laws on the checker and on typed scripts.
#![tactic(auto)]

mod laws;

pub use laws::{
    broken_nodes_are_first, broken_nodes_are_in_files, expressions_are_well_typed,
    expressions_have_types, files_make_programs, scripts_are_well_typed,
    spelled_scripts_have_short_texts, typed_scripts_are_checked, values_have_types,
};
