//! Instructions and units of them, what an instruction does to the types of the operands, and the
//! bytes of a unit.
#![tactic(auto)]

mod effects;
mod fields;
mod instr;
mod laws;
mod methods;
mod operands;
mod rows;
mod shape;
mod unit;
mod updates;

pub use bds_code_frames::{Frame, Frames, Id, Ids, Status, Thread};
pub use effects::{EffectFault, effect, effect_in};
pub use fields::units::read_unit;
pub use fields::writing::{put_unit, write_unit};
pub use instr::{Instr, Kinds};
pub use laws::{rows_name_what_is_missing, units_are_read_back};
pub use rows::slot;
pub use shape::Shape;
pub use unit::{Code, Function, Functions, Labels, Lines, Unit};
