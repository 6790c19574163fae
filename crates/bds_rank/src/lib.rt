//! How much of a run is left.
#![tactic(auto)]

mod laws;

pub use laws::{
    moves_lessen, points_lessen, rows_fall, runs_lessen, runs_stay_sound, turns_are_of_ready,
    turns_lessen,
};
