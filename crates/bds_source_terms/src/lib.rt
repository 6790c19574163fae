//! Terms of the source meaning as values, and what they are made of.
#![tactic(auto)]

mod makings;
mod operators;
mod parts;
mod term;

pub use makings::{call, list_made, map_made, method_of, prefixed};
pub use operators::{Manner, both, choose, choose_of, either, files, manner_of, method, shown};
pub use parts::{
    asked, computed, does, item_taken, joined, key_taken, let_go, one, operands, two, two_boxes,
};
pub use term::{
    Action, Branches, Change, Choice, Choices, Computation, Making, Question, Scope, Term, Terms,
    Way, Ways, Work,
};
