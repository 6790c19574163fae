//! The rows of the table of methods: names, types of arguments, methods, what they give.
use crate::change_numbers::{INSERT, PUSH, REMOVE_INDEX, REMOVE_ITEM, REMOVE_KEY};
use crate::method_numbers::{
    BASE_NAME, DIR_NAME, ENDS_WITH, EXT_NAME, HAS, HAS_KEY, HEAD, INDEX_OF, IS_EMPTY, JOIN, KEYS,
    LAST_INDEX_OF, LENGTH, LINES, LIST_SIZE, MAP_SIZE, PARSE_INT, REMOVE_EXT, REPLACE, REVERSE,
    SORT, SPLIT, STARTS_WITH, SUBSTR, SWAP_EXT, TAIL, TO_LOWER, TO_UPPER, TRIM, VALUES,
};
use crate::methods::{Method, Part, Takes};

/// The methods of a text: names, arguments, methods, what they give.
pub(crate) const TEXT_ROWS: [(&str, Takes, Method, Option<Part>); 24] = [
    (
        "length",
        Takes::Nothing,
        Method::Plain(LENGTH),
        Some(Part::Int),
    ),
    (
        "toUpper",
        Takes::Nothing,
        Method::Plain(TO_UPPER),
        Some(Part::Text),
    ),
    (
        "toLower",
        Takes::Nothing,
        Method::Plain(TO_LOWER),
        Some(Part::Text),
    ),
    (
        "trim",
        Takes::Nothing,
        Method::Plain(TRIM),
        Some(Part::Text),
    ),
    (
        "substr",
        Takes::Two(Part::Int, Part::Int),
        Method::Plain(SUBSTR),
        Some(Part::Text),
    ),
    (
        "startsWith",
        Takes::One(Part::Text),
        Method::Plain(STARTS_WITH),
        Some(Part::Bool),
    ),
    (
        "endsWith",
        Takes::One(Part::Text),
        Method::Plain(ENDS_WITH),
        Some(Part::Bool),
    ),
    (
        "indexOf",
        Takes::One(Part::Text),
        Method::Plain(INDEX_OF),
        Some(Part::Int),
    ),
    (
        "lastIndexOf",
        Takes::One(Part::Text),
        Method::Plain(LAST_INDEX_OF),
        Some(Part::Int),
    ),
    (
        "replace",
        Takes::Two(Part::Text, Part::Text),
        Method::Plain(REPLACE),
        Some(Part::Text),
    ),
    (
        "split",
        Takes::One(Part::Text),
        Method::Plain(SPLIT),
        Some(Part::Texts),
    ),
    (
        "parseInt",
        Takes::Nothing,
        Method::Plain(PARSE_INT),
        Some(Part::Int),
    ),
    (
        "baseName",
        Takes::Nothing,
        Method::Plain(BASE_NAME),
        Some(Part::Text),
    ),
    (
        "dirName",
        Takes::Nothing,
        Method::Plain(DIR_NAME),
        Some(Part::Text),
    ),
    (
        "extName",
        Takes::Nothing,
        Method::Plain(EXT_NAME),
        Some(Part::Text),
    ),
    (
        "removeExt",
        Takes::Nothing,
        Method::Plain(REMOVE_EXT),
        Some(Part::Text),
    ),
    (
        "swapExt",
        Takes::One(Part::Text),
        Method::Plain(SWAP_EXT),
        Some(Part::Text),
    ),
    ("read", Takes::Nothing, Method::File(0), Some(Part::Text)),
    (
        "readLines",
        Takes::Nothing,
        Method::File(1),
        Some(Part::Texts),
    ),
    ("write", Takes::One(Part::Text), Method::File(2), None),
    ("rm", Takes::Nothing, Method::File(3), None),
    ("exists", Takes::Nothing, Method::File(4), Some(Part::Bool)),
    ("isEmpty", Takes::Nothing, Method::File(5), Some(Part::Bool)),
    ("size", Takes::Nothing, Method::File(6), Some(Part::Int)),
];

/// The methods of a text that have no name: the lines of a text that was read.
pub(crate) const INNER_ROWS: [(&str, Takes, Method, Option<Part>); 1] = [(
    "",
    Takes::Nothing,
    Method::Plain(LINES),
    Some(Part::Texts),
)];

/// The methods of every list.
pub(crate) const LIST_ROWS: [(&str, Takes, Method, Option<Part>); 9] = [
    (
        "size",
        Takes::Nothing,
        Method::Plain(LIST_SIZE),
        Some(Part::Int),
    ),
    (
        "isEmpty",
        Takes::Nothing,
        Method::Plain(IS_EMPTY),
        Some(Part::Bool),
    ),
    (
        "head",
        Takes::Nothing,
        Method::Plain(HEAD),
        Some(Part::Item),
    ),
    (
        "tail",
        Takes::Nothing,
        Method::Plain(TAIL),
        Some(Part::Items),
    ),
    (
        "reverse",
        Takes::Nothing,
        Method::Plain(REVERSE),
        Some(Part::Items),
    ),
    ("add", Takes::One(Part::Item), Method::Change(PUSH), None),
    ("push", Takes::One(Part::Item), Method::Change(PUSH), None),
    (
        "add",
        Takes::Two(Part::Int, Part::Item),
        Method::Change(INSERT),
        None,
    ),
    (
        "removeIdx",
        Takes::One(Part::Int),
        Method::Change(REMOVE_INDEX),
        None,
    ),
];

/// The methods of a map.
pub(crate) const MAP_ROWS: [(&str, Takes, Method, Option<Part>); 5] = [
    (
        "size",
        Takes::Nothing,
        Method::Plain(MAP_SIZE),
        Some(Part::Int),
    ),
    (
        "hasKey",
        Takes::One(Part::Text),
        Method::Plain(HAS_KEY),
        Some(Part::Bool),
    ),
    (
        "keys",
        Takes::Nothing,
        Method::Plain(KEYS),
        Some(Part::Texts),
    ),
    (
        "values",
        Takes::Nothing,
        Method::Plain(VALUES),
        Some(Part::Items),
    ),
    (
        "remove",
        Takes::One(Part::Text),
        Method::Change(REMOVE_KEY),
        None,
    ),
];

/// Further methods of a list of truth values.
pub(crate) const BOOL_ROWS: [(&str, Takes, Method, Option<Part>); 2] = [
    (
        "has",
        Takes::One(Part::Item),
        Method::Plain(HAS),
        Some(Part::Bool),
    ),
    (
        "remove",
        Takes::One(Part::Item),
        Method::Change(REMOVE_ITEM),
        None,
    ),
];

/// Further methods of a list of numbers.
pub(crate) const INT_ROWS: [(&str, Takes, Method, Option<Part>); 3] = [
    (
        "has",
        Takes::One(Part::Item),
        Method::Plain(HAS),
        Some(Part::Bool),
    ),
    (
        "remove",
        Takes::One(Part::Item),
        Method::Change(REMOVE_ITEM),
        None,
    ),
    (
        "sort",
        Takes::Nothing,
        Method::Plain(SORT),
        Some(Part::Items),
    ),
];

/// Further methods of a list of texts.
pub(crate) const ITEM_TEXT_ROWS: [(&str, Takes, Method, Option<Part>); 4] = [
    (
        "has",
        Takes::One(Part::Item),
        Method::Plain(HAS),
        Some(Part::Bool),
    ),
    (
        "remove",
        Takes::One(Part::Item),
        Method::Change(REMOVE_ITEM),
        None,
    ),
    (
        "sort",
        Takes::Nothing,
        Method::Plain(SORT),
        Some(Part::Items),
    ),
    (
        "join",
        Takes::One(Part::Text),
        Method::Plain(JOIN),
        Some(Part::Text),
    ),
];
