//! Values that the rows name.
use bds_value::sharing::{list_of, map_of};
use bds_value::{ByteText, Items, Listed, Path, Place, Rising, Ty, Value, put_path, text_of};
use std::alloc::Global;
use std::test::Fail;

/// A text.
pub fn bytes(alloc: Global, text: &[u8]) -> Result<ByteText, Fail> {
    Ok(Listed::from_vec(Vec::from_slice(alloc, text)?))
}

/// A text as a value.
pub fn text(alloc: Global, text: &[u8]) -> Result<Value, Fail> {
    Ok(Value::Text(bytes(alloc, text)?))
}

/// Texts as values.
pub fn texts(alloc: Global, given: &[&[u8]]) -> Result<Items, Fail> {
    let mut items = Listed::new(alloc);
    for given in given {
        items.push(text(alloc, given)?)?;
    }
    Ok(items)
}

/// Numbers as values.
pub fn numbers(alloc: Global, given: &[i64]) -> Result<Items, Fail> {
    let mut items = Listed::new(alloc);
    for number in given {
        items.push(Value::Int(*number))?;
    }
    Ok(items)
}

/// A list of numbers as a value.
pub fn list_of_numbers(alloc: Global, given: &[i64]) -> Result<Value, Fail> {
    Ok(list_of(alloc, Ty::Int, numbers(alloc, given)?)?)
}

/// A list of texts as a value.
pub fn list_of_texts(alloc: Global, given: &[&[u8]]) -> Result<Value, Fail> {
    Ok(list_of(alloc, Ty::Text, texts(alloc, given)?)?)
}

/// A path of one key.
pub fn key_path(alloc: Global, key: &[u8]) -> Result<Path, Fail> {
    let mut path = Listed::new(alloc);
    path.push(Place::Key(bytes(alloc, key)?))?;
    Ok(path)
}

/// A map with these keys, each with its length.
pub fn map(alloc: Global, keys: &[&[u8]]) -> Result<Value, Fail> {
    let mut map = map_of(alloc, Ty::Int, Rising::new(alloc))?;
    for key in keys {
        let path = key_path(alloc, key)?;
        put_path(alloc, &mut map, &path, Value::Int(key.len() as i64))?;
    }
    Ok(map)
}

/// The text of a value, which ends here.
pub fn ends_shown(alloc: Global, value: Value) -> Result<ByteText, Fail> {
    match text_of(alloc, &value) {
        Ok(text) => Ok(text),
        Err(_) => bytes(alloc, b"no text"),
    }
}

/// Whether a value has this text.
pub fn has_text(alloc: Global, value: &Value, text: &[u8]) -> Result<bool, Fail> {
    Ok(text_of(alloc, value)?.as_slice() == text)
}
