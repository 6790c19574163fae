//! Functions and units.
use crate::instr::Instr;
use crate::shape::Shape;
use bds_value::{At, ByteText, Listed, Texts, Ty, Types};

/// The code of a function.
pub type Code = Listed<Instr>;

/// Places that jumps lead to or that stand behind an instruction which never goes on to the next,
/// rising, each with the types of the operands there.
pub type Labels = Listed<(u32, Shape)>;

/// The line of each instruction.
pub type Lines = Listed<At>;

/// The slots of a call are the parameters, and behind them the locals.
#[derive(Debug, Drop)]
pub struct Function {
    pub name: ByteText,
    pub params: Types,
    pub locals: Types,
    pub ret: Ty,
    pub code: Code,
    pub labels: Labels,
    pub lines: Lines,
}

/// Functions by their numbers.
pub type Functions = Listed<Function>;

/// A program in instructions. Function 0 is its beginning.
#[derive(Debug, Drop)]
pub struct Unit {
    pub files: Texts,
    pub globals: Types,
    pub functions: Functions,
}
