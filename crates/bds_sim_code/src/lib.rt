//! The generated code of a program stands for its terms: laws, each the clause of a function that does nothing.
#![tactic(auto)]

mod laws;

pub use laws::{
    begun_states_stand, histories_go_on, main_threads_stand, script_histories_go_on,
    typed_scripts_are_here, units_have_code, units_run_as_scripts,
};
