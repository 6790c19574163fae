//! Reading a script with its includes, and checking the program that these files make.
#![tactic(auto)]

mod front_fault;
mod including;
mod laws;
mod loading;
mod one_file;
mod paths;
mod read_paths;

pub use front_fault::FrontFault;
pub use laws::{
    accepted_script_runs, files_make_one_program, flaws_are_told, job_has_one_step,
    job_is_never_stuck, line_of_flaw_is_free, log_has_one_end, one_file_is_next, replies_make_job,
    script_is_refused_or_run, text_has_one_flaw, text_is_flawed_unless_spelled,
    text_spells_one_script, whole_program_has_no_next,
};
pub use loading::load;
pub use one_file::{Lexed, read_tokens};
