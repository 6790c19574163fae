//! What words give.
use bds_value::{ByteText, Listed, Value};

/// The value that words give the global of a name.
#[derive(Drop)]
pub struct Given {
    pub name: ByteText,
    pub value: Value,
}

pub type Settings = Listed<Given>;
