//! The numbers of methods.

/// `length`.
pub const LENGTH: u8 = 0;

/// `toUpper`.
pub const TO_UPPER: u8 = 1;

/// `toLower`.
pub const TO_LOWER: u8 = 2;

/// `trim`.
pub const TRIM: u8 = 3;

/// `substr`.
pub const SUBSTR: u8 = 4;

/// `startsWith`.
pub const STARTS_WITH: u8 = 5;

/// `endsWith`.
pub const ENDS_WITH: u8 = 6;

/// `indexOf`.
pub const INDEX_OF: u8 = 7;

/// `lastIndexOf`.
pub const LAST_INDEX_OF: u8 = 8;

/// `replace`.
pub const REPLACE: u8 = 9;

/// `split`.
pub const SPLIT: u8 = 10;

/// `parseInt`.
pub const PARSE_INT: u8 = 11;

/// `baseName`.
pub const BASE_NAME: u8 = 12;

/// `dirName`.
pub const DIR_NAME: u8 = 13;

/// `extName`.
pub const EXT_NAME: u8 = 14;

/// `removeExt`.
pub const REMOVE_EXT: u8 = 15;

/// `swapExt`.
pub const SWAP_EXT: u8 = 16;

/// `size` of a list.
pub const LIST_SIZE: u8 = 17;

/// `isEmpty` of a list.
pub const IS_EMPTY: u8 = 18;

/// `has`.
pub const HAS: u8 = 19;

/// `join`.
pub const JOIN: u8 = 20;

/// `head`.
pub const HEAD: u8 = 21;

/// `tail`.
pub const TAIL: u8 = 22;

/// `reverse`.
pub const REVERSE: u8 = 23;

/// `sort`.
pub const SORT: u8 = 24;

/// `size` of a map.
pub const MAP_SIZE: u8 = 25;

/// `hasKey`.
pub const HAS_KEY: u8 = 26;

/// `keys`.
pub const KEYS: u8 = 27;

/// `values`.
pub const VALUES: u8 = 28;

/// The lines of a text, which has no name.
pub const LINES: u8 = 29;
