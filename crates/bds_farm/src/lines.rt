//! Lines that tell ends.
ghost use Rattle.std.specs.Prelude.{◌≡◌, ◌≢◌, ◌<◌, ◌≤◌, ◌^◌, ◌++◌, ℕ, List, codes, decimal, MatchOption};
ghost use Rattle.bds_farm.specs.Farm.{end_line};

use itoa::Buffer;

/// What stands behind words.
fn behind<'a>(words: &[u8], text: &'a [u8]) -> Option<&'a [u8]>
    ensures { MatchOption result ((rest : List ℕ) → text.entry.now ≢ words.now ++ rest)
        (λ rest. text.entry.now ≡ words.now ++ rest.now) }
{
    if text.len() < words.len() {
        return None;
    }
    let (head, rest) = text.split_at(words.len());
    if head == words { Some(rest) } else { None }
}

/// The number that a text tells in decimal digits, as it is printed.
fn number_of(text: &str) -> Option<u8>
    ensures { MatchOption result ((n : ℕ) → n < 2 ^ 8 → text.now ≢ decimal n) (λ n. text.now ≡ decimal n) }
{
    let Ok(number) = text.parse::<u8>() else {
        return None;
    };
    let mut buffer = Buffer::new();
    if buffer.format(number) == text {
        Some(number)
    } else {
        None
    }
}

/// The number that bytes tell so.
fn number_in(text: &[u8]) -> Option<u8>
    ensures { MatchOption result ((n : ℕ) → n < 2 ^ 8 → text.now ≢ decimal n) (λ n. text.now ≡ decimal n) }
{
    let Ok(text) = str::from_utf8(text) else {
        return None;
    };
    number_of(text)
}

/// The code behind a space.
fn code_in(text: &[u8]) -> Option<u8>
    ensures { MatchOption result ((n : ℕ) → n < 2 ^ 8 → text.now ≢ codes " " ++ decimal n)
        (λ n. text.now ≡ codes " " ++ decimal n) }
{
    match behind(b" ", text) {
        Some(rest) => number_in(rest),
        None => None,
    }
}

fn number_behind<'a>(words: &[u8], number: u32, text: &'a [u8]) -> Option<&'a [u8]>
    ensures { MatchOption result ((rest : List ℕ) → text.entry.now ≢ (words.now ++ decimal number) ++ rest)
        (λ rest. text.entry.now ≡ (words.now ++ decimal number) ++ rest.now) }
{
    let mut buffer = Buffer::new();
    match behind(words, text) {
        Some(rest) => behind(buffer.format(number).as_bytes(), rest),
        None => None,
    }
}

/// The code of the end of an attempt, where a line tells that.
pub fn code_of(task: u32, attempt: u32, line: &[u8]) -> Option<u8>
    ensures { MatchOption result ((n : ℕ) → n < 2 ^ 8 → line.now ≢ end_line task attempt n)
        (λ n. line.now ≡ end_line task attempt n) }
{
    match number_behind(b"task.", task, line) {
        Some(rest) => match number_behind(b".", attempt, rest) {
            Some(rest) => code_in(rest),
            None => None,
        },
        None => None,
    }
}
