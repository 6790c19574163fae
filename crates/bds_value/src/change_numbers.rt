//! The numbers of changes: of assignments, and of the methods that change their receiver.

/// `=`.
pub const ASSIGN: u8 = 0;

/// `+=`.
pub const ADD: u8 = 1;

/// `-=`.
pub const SUBTRACT: u8 = 2;

/// `*=`.
pub const MULTIPLY: u8 = 3;

/// `/=`.
pub const DIVIDE: u8 = 4;

/// `%=`.
pub const REMAINDER: u8 = 5;

/// `add` and `push` of an item.
pub const PUSH: u8 = 6;

/// `add` of an item at an index.
pub const INSERT: u8 = 7;

/// `removeIdx`.
pub const REMOVE_INDEX: u8 = 8;

/// `remove` of an item.
pub const REMOVE_ITEM: u8 = 9;

/// `remove` of a key.
pub const REMOVE_KEY: u8 = 10;
