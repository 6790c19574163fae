//! The parts of a line: words, and texts in quotes.
use bds_value::{ByteText, Listed, NoMemory};
use std::alloc::{AllocError, AllocFailed, Global};
use std::mem;

/// Why a line isn't read.
#[derive(Clone, Copy, Debug, PartialEq, Eq)]
pub enum LineFault {
    /// It is of no form that a line has.
    Form,
    NoMemory,
}

impl From<NoMemory> for LineFault {
    fn from(_: NoMemory) -> Self {
        LineFault::NoMemory
    }
}

impl From<AllocError> for LineFault {
    fn from(_: AllocError) -> Self {
        LineFault::NoMemory
    }
}

impl<T: Drop> From<AllocFailed<T>> for LineFault {
    fn from(_: AllocFailed<T>) -> Self {
        LineFault::NoMemory
    }
}

/// A part of a line.
#[derive(Debug, Drop)]
pub enum Item {
    /// What stands up to the next blank, as a word or a number.
    Word(ByteText),
    /// What is meant by that which stands between quotes.
    Text(ByteText),
}

/// Where in a line a reader stands.
#[derive(Clone, Copy)]
enum Place {
    Between,
    InWord,
    InText,
    BehindBackslash,
    /// Behind `\x`.
    BehindX,
    /// Behind `\x` and a digit.
    BehindDigit(u8),
    BehindText,
}

#[derive(Drop)]
struct Reader {
    place: Place,
    /// What was read of the part that isn't at its end.
    part: Vec<u8>,
    items: Vec<Item>,
}

/// The value of a digit to the base of 16.
fn digit(byte: u8) -> Result<u8, LineFault> {
    match byte {
        b'0'..=b'9' => Ok(byte - b'0'),
        b'a'..=b'f' => Ok(byte - b'a' + 10),
        _ => Err(LineFault::Form),
    }
}

/// What a letter behind a backslash means.
fn escaped(byte: u8) -> Result<u8, LineFault> {
    match byte {
        b'n' => Ok(b'\n'),
        b't' => Ok(b'\t'),
        b'r' => Ok(b'\r'),
        b'"' | b'\\' => Ok(byte),
        _ => Err(LineFault::Form),
    }
}

impl Reader {
    fn part(&mut self, alloc: Global) -> ByteText {
        Listed::from_vec(mem::replace(&mut self.part, Vec::new(alloc)))
    }

    fn put(&mut self, byte: u8, place: Place) -> Result<(), LineFault> {
        self.part.push(byte)?;
        self.place = place;
        Ok(())
    }

    fn end_word(&mut self, alloc: Global) -> Result<(), LineFault> {
        let word = self.part(alloc);
        self.items.push(Item::Word(word))?;
        self.place = Place::Between;
        Ok(())
    }

    fn end_text(&mut self, alloc: Global) -> Result<(), LineFault> {
        let text = self.part(alloc);
        self.items.push(Item::Text(text))?;
        self.place = Place::BehindText;
        Ok(())
    }

    fn in_text(&mut self, alloc: Global, byte: u8) -> Result<(), LineFault> {
        match byte {
            b'"' => self.end_text(alloc),
            b'\\' => {
                self.place = Place::BehindBackslash;
                Ok(())
            }
            _ => self.put(byte, Place::InText),
        }
    }

    fn between(&mut self, byte: u8) -> Result<(), LineFault> {
        match byte {
            b' ' => Ok(()),
            b'"' => {
                self.place = Place::InText;
                Ok(())
            }
            _ => self.put(byte, Place::InWord),
        }
    }

    fn behind_backslash(&mut self, byte: u8) -> Result<(), LineFault> {
        if byte == b'x' {
            self.place = Place::BehindX;
            Ok(())
        } else {
            self.put(escaped(byte)?, Place::InText)
        }
    }

    fn step(&mut self, alloc: Global, byte: u8) -> Result<(), LineFault> {
        match (self.place, byte) {
            (Place::Between, _) => self.between(byte),
            (Place::InWord, b' ') => self.end_word(alloc),
            (Place::InWord, b'"') => Err(LineFault::Form),
            (Place::InWord, _) => self.put(byte, Place::InWord),
            (Place::InText, _) => self.in_text(alloc, byte),
            (Place::BehindBackslash, _) => self.behind_backslash(byte),
            (Place::BehindX, _) => {
                self.place = Place::BehindDigit(digit(byte)?);
                Ok(())
            }
            (Place::BehindDigit(high), _) => {
                let byte = high.wrapping_mul(16).wrapping_add(digit(byte)?);
                self.put(byte, Place::InText)
            }
            (Place::BehindText, b' ') => {
                self.place = Place::Between;
                Ok(())
            }
            (Place::BehindText, _) => Err(LineFault::Form),
        }
    }

    fn end(self, alloc: Global) -> Result<Vec<Item>, LineFault> {
        let mut reader = self;
        match reader.place {
            Place::Between | Place::BehindText => {}
            Place::InWord => reader.end_word(alloc)?,
            _ => return Err(LineFault::Form),
        }
        let Reader { items, .. } = reader;
        Ok(items)
    }
}

/// The parts of a line.
pub fn items(alloc: Global, line: &[u8]) -> Result<Vec<Item>, LineFault> {
    let mut reader = Reader {
        place: Place::Between,
        part: Vec::new(alloc),
        items: Vec::new(alloc),
    };
    for byte in line {
        reader.step(alloc, *byte)?;
    }
    reader.end(alloc)
}
