//! The path that an include names.
ghost use Rattle.std.specs.Prelude.{◌≡◌, ◌≤◌, ◌<◌, ◌+◌, ◌^◌, ◌++◌, [], ◌∷◌, IfOk, length, take, if◌then◌else◌};
ghost use Rattle.bds_check_typing.specs.Files as files;

use bds_tree::{Include, Piece};
use bds_value::{ByteText, Listed, NoMemory};
use std::alloc::Global;

/// Where the folder ends behind one more byte.
fn end_behind(end: usize, at: usize, byte: u8) -> usize
    requires { at < 2 ^ 63 }
    ensures { result ≡ (if files.is_slash byte then at + 1 else end) }
{
    if byte == b'/' { at + 1 } else { end }
}

/// How many bytes there are up to and with the last `/`.
#[tactic(auto, using(crate::proofs::Folders::path_rules))]
fn folder_length(path: &[u8]) -> usize
    ensures within { result ≤ length path.now }
    ensures folder { take result path.now ≡ files.folder path.now }
{
    let mut end = 0;
    for (i, byte) in path.iter().enumerate() {
        end = end_behind(end, i, *byte);
    }
    end
}

/// The folder of a path, with its last `/`.
fn folder(path: &[u8]) -> &[u8]
    ensures { result.now ≡ files.folder path.now }
{
    path.split_at(folder_length(path)).0
}

/// Puts a piece at the end, where it is plain.
fn append_plain(text: &mut ByteText, piece: &Piece) -> Result<(), NoMemory>
    ensures { IfOk result (λ _. text.new ≡ text.old ++ files.plain_text (piece.now ∷ [])) }
{
    match piece {
        Piece::Plain(plain) => text.append(plain.as_slice()),
        Piece::Name(_) => Ok(()),
        Piece::Item(_, _) => Ok(()),
        Piece::Key(_, _) => Ok(()),
    }
}

/// A text without variables.
#[tactic(auto, using(crate::proofs::Folders::path_rules))]
fn plain_text(alloc: Global, pieces: &[Piece]) -> Result<ByteText, NoMemory>
    ensures { IfOk result (λ text. text ≡ files.plain_text pieces.now) }
{
    let mut text = Listed::new(alloc);
    for piece in pieces {
        append_plain(&mut text, piece)?;
    }
    Ok(text)
}

fn begins_with_slash(path: &[u8]) -> bool
    ensures { result ≡ files.begins_with_slash path.now }
{
    match path.first() {
        Some(byte) => *byte == b'/',
        None => false,
    }
}

/// A name behind a folder.
fn behind(alloc: Global, folder: &[u8], name: &ByteText) -> Result<ByteText, NoMemory>
    ensures { IfOk result (λ path. path ≡ folder.now ++ name.now) }
{
    let mut path = Listed::new(alloc);
    path.append(folder)?;
    path.append(name.as_slice())?;
    Ok(path)
}

/// The path that an include names in the file of a path.
pub fn path_from(alloc: Global, path: &ByteText, include: &Include) -> Result<ByteText, NoMemory>
    ensures { IfOk result (λ named. named ≡ files.path_from path.now include.now) }
{
    let name = plain_text(alloc, include.path.as_slice())?;
    if begins_with_slash(name.as_slice()) {
        Ok(name)
    } else {
        behind(alloc, folder(path.as_slice()), &name)
    }
}
