//! The numbers of methods and changes by their names.
use crate::made::bytes;
use bds_value::{Method, Shared, Ty, signature};
use std::alloc::Global;
use std::test::Fail;

/// The number of a method or change, or of none.
pub fn number_of(alloc: Global, receiver: &Ty, name: &str, count: usize) -> Result<u8, Fail> {
    match signature(receiver, &bytes(alloc, name.as_bytes())?, count as u64) {
        Some(Method::Plain(number)) => Ok(number),
        Some(Method::Change(number)) => Ok(number),
        _ => Ok(u8::MAX),
    }
}

/// The same at a list.
pub fn number_at_list(alloc: Global, item: Ty, name: &str, count: usize) -> Result<u8, Fail> {
    number_of(alloc, &Ty::List(Shared::of(alloc, item)?), name, count)
}

/// The same at a map of numbers.
pub fn number_at_map(alloc: Global, name: &str, count: usize) -> Result<u8, Fail> {
    number_of(alloc, &Ty::Map(Shared::of(alloc, Ty::Int)?), name, count)
}
