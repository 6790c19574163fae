//! Words that name a global.
ghost use Rattle.std.specs.Prelude.{◌≡◌, map};
ghost use Rattle.std.specs.List.{list_all, list_any};
ghost use Rattle.std.specs.Str.{bytes_eq};
ghost use Rattle.bds_tree.specs.lexing.Bytes.{begins_name, is_name_byte};
ghost use Rattle.bds_check_words.specs.Views.{option_now};
ghost use Rattle.bds_check_words.specs.SetNames.{if_name, is_name, is_reserved, name_in};
ghost use Rattle.bds_check_words.specs.WordSettings.{is_dashed};

/// The words that name nothing.
const RESERVED: [&[u8]; 36] = [
    b"bool",
    b"int",
    b"string",
    b"void",
    b"true",
    b"false",
    b"if",
    b"else",
    b"while",
    b"for",
    b"break",
    b"continue",
    b"return",
    b"include",
    b"print",
    b"println",
    b"error",
    b"exit",
    b"wait",
    b"checkpoint",
    b"task",
    b"dep",
    b"goal",
    b"par",
    b"switch",
    b"case",
    b"default",
    b"real",
    b"class",
    b"try",
    b"catch",
    b"throw",
    b"kill",
    b"breakpoint",
    b"debug",
    b"sys",
];

fn is_one_of(word: &[u8], words: &[&[u8]]) -> bool
    ensures { result ≡ list_any (λ w. bytes_eq word.now w) (map (λ w. w.now) words.now) }
{
    for other in words {
        if word == *other {
            return true;
        }
    }
    false
}

fn is_reserved(name: &[u8]) -> bool
    ensures { result ≡ is_reserved name.now }
{
    is_one_of(name, &RESERVED)
}

/// A letter or `_`.
fn begins_name(byte: u8) -> bool
    ensures { result ≡ begins_name byte }
{
    byte.is_ascii_alphabetic() || byte == b'_'
}

fn is_name_byte(byte: u8) -> bool
    ensures { result ≡ is_name_byte byte }
{
    begins_name(byte) || byte.is_ascii_digit()
}

fn are_name_bytes(bytes: &[u8]) -> bool
    ensures { result ≡ list_all is_name_byte bytes.now }
{
    for byte in bytes {
        if !is_name_byte(*byte) {
            return false;
        }
    }
    true
}

fn is_name(text: &[u8]) -> bool
    ensures { result ≡ is_name text.now }
{
    match text {
        [first, behind @ ..] => {
            begins_name(*first) && are_name_bytes(behind) && !is_reserved(text)
        }
        [] => false,
    }
}

fn if_name(text: &[u8]) -> Option<&[u8]>
    ensures { option_now result ≡ if_name text.now }
{
    if is_name(text) { Some(text) } else { None }
}

/// The name of the global that a word sets: behind one `-` or two.
pub fn name_in(word: &[u8]) -> Option<&[u8]>
    ensures { option_now result ≡ name_in word.now }
{
    match word {
        [b'-', b'-', name @ ..] => if_name(name),
        [b'-', name @ ..] => if_name(name),
        _ => None,
    }
}

/// A word that begins with `-`.
pub fn is_dashed(word: &[u8]) -> bool
    ensures { result ≡ is_dashed word.now }
{
    match word {
        [b'-', ..] => true,
        _ => false,
    }
}
