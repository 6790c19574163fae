//! What the terms of statements are made of: declarations, what lines ask for, how they end, blocks, loops and sequences.
#![tactic(auto)]

mod asks;
mod bodies;
mod declarations;
mod ends;

pub use asks::{checkpoint_term, print_term, println_term, wait_term};
pub use bodies::{
    block, each, followed, for_of, label_term, looped, looped_in, sequence, spawn_block, switched,
    test_term,
};
pub use declarations::{declare, declare_set, declared_here, default_line, default_term, set_at};
pub use ends::{error_term, exit_term, returned};
