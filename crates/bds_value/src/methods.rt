//! The table of methods.
ghost use Rattle.std.specs.Prelude.{◌≡◌, ◌++◌, length, map};
ghost use Rattle.bds_value.specs.declared.value.Ty.{out-Ty};
ghost use Rattle.bds_value.specs.Methods.{find_in, parts_of, row, row_of, text_rows, inner_rows, list_rows, item_rows, map_rows, signature_of, row_named, all_rows, same_method, row_in, row_at, arguments_of};
ghost use Rattle.bds_value.specs.declared.value.Ty.TheOpen.{Ty-F};

use crate::method_rows::{
    BOOL_ROWS, INNER_ROWS, INT_ROWS, ITEM_TEXT_ROWS, LIST_ROWS, MAP_ROWS, TEXT_ROWS,
};
use crate::types::is_void;
use crate::value::{ByteText, Ty};

/// What a name and a number of arguments stand for at a receiver: a method by its number, a call
/// on a file by its place, or a change of the receiver by its number.
#[derive(Clone, Copy, Debug, PartialEq, Eq)]
pub enum Method {
    Plain(u8),
    File(u8),
    Change(u8),
}

/// A type in the row of a method: `Item` is that of the receiver's items or values, and `Items` the
/// list of them.
#[derive(Clone, Copy, Debug, PartialEq, Eq)]
pub enum Part {
    Bool,
    Int,
    Text,
    Texts,
    Item,
    Items,
}

/// The types of a method's arguments.
#[derive(Clone, Copy, Debug, PartialEq, Eq)]
pub enum Takes {
    Nothing,
    One(Part),
    Two(Part, Part),
}

/// What a method is, takes and gives.
#[derive(Clone, Copy, Debug, PartialEq, Eq)]
pub struct MethodRow {
    pub method: Method,
    pub takes: Takes,
    pub gives: Option<Part>,
}

/// The method of a receiver's type that has the name and the number of arguments, if there is one.
pub fn signature(receiver: &Ty, name: &ByteText, count: u64) -> Option<Method>
    ensures { result ≡ signature_of receiver.now name.now count }
{
    match method_row(receiver, name, count) {
        Some(row) => Some(row.method),
        None => None,
    }
}

/// The row of a receiver's type that has the name and the number of arguments, if there is one.
pub fn method_row(receiver: &Ty, name: &ByteText, count: u64) -> Option<MethodRow>
    ensures { result ≡ row_named receiver.now name.now count }
{
    let name = name.as_slice();
    match receiver {
        Ty::Text => text_method(name, count),
        Ty::List(item) => list_method(item.get(), name, count),
        Ty::Map(_) => find_row(&MAP_ROWS, name, count),
        _ => None,
    }
}

fn text_method(name: &[u8], count: u64) -> Option<MethodRow>
    ensures { result ≡ find_in row_of text_rows name.now count }
{
    find_row(&TEXT_ROWS, name, count)
}

fn list_method(item: &Ty, name: &[u8], count: u64) -> Option<MethodRow>
    ensures { result ≡ find_in row_of (list_rows ++ item_rows (out-Ty item.now)) name.now count }
{
    match find_row(&LIST_ROWS, name, count) {
        Some(row) => Some(row),
        None => item_method(item, name, count),
    }
}

/// The further methods of a list, by the type of its items.
fn item_method(item: &Ty, name: &[u8], count: u64) -> Option<MethodRow>
    ensures { result ≡ find_in row_of (item_rows (out-Ty item.now)) name.now count }
{
    match item {
        Ty::Bool => find_row(&BOOL_ROWS, name, count),
        Ty::Int => find_row(&INT_ROWS, name, count),
        Ty::Text => find_row(&ITEM_TEXT_ROWS, name, count),
        _ => None,
    }
}

/// How many arguments are taken.
fn count_of(takes: Takes) -> u64
    ensures { result ≡ length (parts_of takes) }
{
    match takes {
        Takes::Nothing => 0,
        Takes::One(_) => 1,
        Takes::Two(_, _) => 2,
    }
}

fn find_row(
    rows: &[(&str, Takes, Method, Option<Part>)],
    name: &[u8],
    count: u64,
) -> Option<MethodRow>
    ensures { result ≡ find_in row_of (map (λ r. row r.0.now r.1 r.2 r.3) rows.now) name.now count }
{
    for row in rows {
        if row.0.as_bytes() == name && count_of(row.1) == count {
            return Some(MethodRow {
                method: row.2,
                takes: row.1,
                gives: row.3,
            });
        }
    }
    None
}

/// The row of a method at a receiver's type, if there is one. A list or map of `Void` has none.
pub fn row_at(receiver: &Ty, wanted: Method) -> Option<MethodRow>
    ensures { result ≡ row_at receiver.now wanted }
{
    match receiver {
        Ty::Text => text_row(wanted),
        Ty::List(item) if !is_void(item.get()) => list_row(item.get(), wanted),
        Ty::Map(value) if !is_void(value.get()) => row_in(&MAP_ROWS, wanted),
        _ => None,
    }
}

fn text_row(wanted: Method) -> Option<MethodRow>
    ensures { result ≡ row_in (text_rows ++ inner_rows) wanted }
{
    match row_in(&TEXT_ROWS, wanted) {
        Some(row) => Some(row),
        None => row_in(&INNER_ROWS, wanted),
    }
}

fn list_row(item: &Ty, wanted: Method) -> Option<MethodRow>
    ensures { result ≡ row_in (list_rows ++ item_rows (out-Ty item.now)) wanted }
{
    match row_in(&LIST_ROWS, wanted) {
        Some(row) => Some(row),
        None => item_row(item, wanted),
    }
}

fn item_row(item: &Ty, wanted: Method) -> Option<MethodRow>
    ensures { result ≡ row_in (item_rows (out-Ty item.now)) wanted }
{
    match item {
        Ty::Bool => row_in(&BOOL_ROWS, wanted),
        Ty::Int => row_in(&INT_ROWS, wanted),
        Ty::Text => row_in(&ITEM_TEXT_ROWS, wanted),
        _ => None,
    }
}

/// How many arguments a method takes, if there is such a method.
pub fn arguments_of(wanted: Method) -> Option<u64>
    ensures { result ≡ arguments_of wanted }
{
    match any_row(wanted) {
        Some(row) => Some(count_of(row.takes)),
        None => None,
    }
}

/// The first row of a method among those of all types.
fn any_row(wanted: Method) -> Option<MethodRow>
    ensures { result ≡ row_in all_rows wanted }
{
    match text_row(wanted) {
        Some(row) => Some(row),
        None => many_row(wanted),
    }
}

/// Among those of lists and maps.
fn many_row(wanted: Method) -> Option<MethodRow>
    ensures { result ≡ row_in ((list_rows ++ item_rows Ty-F.Text) ++ map_rows) wanted }
{
    match list_row(&Ty::Text, wanted) {
        Some(row) => Some(row),
        None => row_in(&MAP_ROWS, wanted),
    }
}

fn row_in(rows: &[(&str, Takes, Method, Option<Part>)], wanted: Method) -> Option<MethodRow>
    ensures { result ≡ row_in (map (λ r. row r.0.now r.1 r.2 r.3) rows.now) wanted }
{
    for row in rows {
        if same_method(row.2, wanted) {
            return Some(MethodRow {
                method: row.2,
                takes: row.1,
                gives: row.3,
            });
        }
    }
    None
}

fn same_method(a: Method, b: Method) -> bool
    ensures { result ≡ same_method a b }
{
    match (a, b) {
        (Method::Plain(m), Method::Plain(n)) => m == n,
        (Method::File(m), Method::File(n)) => m == n,
        (Method::Change(m), Method::Change(n)) => m == n,
        _ => false,
    }
}
