//! The instructions.
use bds_value::{ByteText, Listed, Ty};

/// The steps of a path into a variable: `false` for an index of a list, `true` for a key of a map.
pub type Kinds = Listed<bool>;

/// One instruction. A slot is a parameter or local of the function; a place is that of an
/// instruction in the function's code.
#[derive(Debug, Drop)]
pub enum Instr {
    PushBool(bool),
    PushInt(i64),
    PushText(ByteText),
    PushDefault(Ty),
    Load(u16),
    Store(u16),
    LoadGlobal(u16),
    StoreGlobal(u16),
    Drop,
    Add,
    Sub,
    Mul,
    Div,
    Rem,
    Neg,
    Not,
    /// The text of a value.
    Show,
    /// The text of a value as a piece of a text.
    Blank,
    Concat,
    ListAdd,
    ListCat,
    Equal,
    NotEqual,
    Less,
    LessEqual,
    Greater,
    GreaterEqual,
    /// A list of so many operands, with the type of its items.
    MakeList(Ty, u32),
    /// A map of so many pairs of operands, with the type of its values.
    MakeMap(Ty, u32),
    Item,
    Key,
    /// Changes a part of a variable: whether it is a global, its number, the steps to the part,
    /// and the number of the change.
    Update(bool, u16, Kinds, u8),
    Jump(u32),
    JumpUnless(u32),
    /// Counts one tick.
    Tick,
    Call(u32),
    Return,
    Method(u8),
    FileRead,
    FileWrite,
    FileRemove,
    /// Asks of a file: 0 whether it is there, 1 whether it is empty, 2 its size.
    FileStamp(u8),
    Out,
    Stop,
    Exit,
    Sys,
    OutOfDate,
    NewTask,
    Declare,
    Goal,
    Spawn(u32),
    Wait,
    WaitAll,
    Save,
    SaveHere,
}
