//! Files: read, written, saved, removed and stamped.
ghost use Rattle.std.specs.Prelude.{◌≡◌, ◌++◌, ℕ, List, None, IfOk, IfSome, string_bytes};
ghost use Rattle.std.specs.Str.{IsUtf8};
ghost use Rattle.bds_exec.specs.Serving.{Serves};
ghost use Rattle.bds_exec.specs.System.{Replies, IsPlaced, path_beside as path_beside_of};
ghost use Rattle.bds_host.specs.declared.asks.Ask.TheVariants.{Read as ReadAsk, Stamp as StampAsk, Write as WriteAsk, Remove as RemoveAsk, Save as SaveAsk};
ghost use Rattle.bds_host.specs.declared.asks.Reply.TheVariants.{Fault};

use crate::fresh::make;
use crate::replies::{bytes_read, done, failed, removed, stamped};
use crate::system::System;
use crate::targets::Target;
use bds_host::Reply;
use bds_value::{ByteText, NoMemory};
use std::alloc::Global;
use std::fs::{Files, OpenFile};
use std::io;
use std::io::Write;

/// A path or a command, where it is text.
pub fn text_of(bytes: &ByteText) -> Option<&str>
    ensures some { IfSome result (λ text. text.now ≡ bytes.now) }
    ensures none { result ≡ None → IsUtf8 bytes.now → ⊥ }
{
    match str::from_utf8(bytes.as_slice()) {
        Ok(text) => Some(text),
        Err(_) => None,
    }
}

/// The bytes of the file at a path.
#[tactic(auto, using(crate::proofs::Answered::answered))]
pub fn read<S: System>(alloc: Global, system: &S, path: &ByteText) -> Result<Reply, NoMemory>
    ensures served { Serves (ReadAsk path.now) result }
    ensures told { IsUtf8 path.now → IfOk result (Replies S.answers (ReadAsk path.now)) }
    ensures strange { (IsUtf8 path.now → ⊥) → IfOk result (λ reply. reply ≡ Fault) }
{
    match text_of(path) {
        Some(name) => bytes_read(system.read_file(alloc, name)),
        None => Ok(Reply::Fault),
    }
}

/// Puts bytes into the file at a path, which is made or emptied first.
#[tactic(auto, using(crate::proofs::Answered::answered))]
pub fn write<S: System>(system: &S, path: &ByteText, bytes: &ByteText) -> Result<Reply, NoMemory>
    ensures served { Serves (WriteAsk path.now bytes.now) result }
    ensures told { IsUtf8 path.now → IfOk result (Replies S.answers (WriteAsk path.now bytes.now)) }
    ensures strange { (IsUtf8 path.now → ⊥) → IfOk result (λ reply. reply ≡ Fault) }
{
    match text_of(path) {
        Some(name) => done(system.write_file(name, bytes.as_slice())),
        None => Ok(Reply::Fault),
    }
}

/// Puts bytes into a new file at a path, with a mode where one is named, and waits until they are on the disk.
pub fn store<R: Files>(rt: &R, path: &str, bytes: &[u8], mode: Option<u32>) -> io::Result<()> {
    let mut file = make(rt, path, mode)?;
    file.write_all(bytes)?;
    file.sync_all()
}

/// The path beside a path, at which a save is written first.
fn path_beside(alloc: Global, path: &str) -> Result<String, NoMemory>
    ensures { IfOk result (λ name. string_bytes name ≡ path_beside_of path.now) }
{
    let mut name = String::from_str(alloc, path)?;
    name.push_str(".new")?;
    Ok(name)
}

/// Stores an image beside a path, and moves it there.
fn put_in_place<S: System>(
    alloc: Global,
    system: &S,
    place: &str,
    image: &[u8],
    mode: Option<u32>,
) -> Result<Reply, NoMemory>
    ensures served { (path : List ℕ) → Serves (SaveAsk path image.now) result }
    ensures told { IfOk result (IsPlaced S.answers place.now image.now mode) }
{
    let beside = path_beside(alloc, place)?;
    match system.store_file(beside.as_str(), image, mode) {
        Ok(()) => done(system.move_file(beside.as_str(), place)),
        Err(error) => failed(error),
    }
}

/// Saves an image at a path. It goes to the file behind all links, where what stood there stays until the whole image is
/// on the disk; what is no file is written as it stands.
#[tactic(auto, using(crate::proofs::Answered::answered))]
pub fn save<S: System>(
    alloc: Global,
    system: &S,
    path: &ByteText,
    image: &ByteText,
) -> Result<Reply, NoMemory>
    ensures served { Serves (SaveAsk path.now image.now) result }
    ensures told { IsUtf8 path.now → IfOk result (Replies S.answers (SaveAsk path.now image.now)) }
    ensures strange { (IsUtf8 path.now → ⊥) → IfOk result (λ reply. reply ≡ Fault) }
{
    let Some(path) = text_of(path) else {
        return Ok(Reply::Fault);
    };
    match system.look_at(alloc, path) {
        Ok(Target::File(place, mode)) => {
            put_in_place(alloc, system, place.as_str(), image.as_slice(), mode)
        }
        Ok(Target::Other) => done(system.write_file(path, image.as_slice())),
        Err(error) => failed(error),
    }
}

/// Removes the file at a path.
#[tactic(auto, using(crate::proofs::Answered::answered))]
pub fn remove<S: System>(system: &S, path: &ByteText) -> Result<Reply, NoMemory>
    ensures served { Serves (RemoveAsk path.now) result }
    ensures told { IsUtf8 path.now → IfOk result (Replies S.answers (RemoveAsk path.now)) }
    ensures strange { (IsUtf8 path.now → ⊥) → IfOk result (λ reply. reply ≡ Fault) }
{
    match text_of(path) {
        Some(name) => removed(system.remove_file(name)),
        None => Ok(Reply::Fault),
    }
}

/// The stamp of the file at a path.
#[tactic(auto, using(crate::proofs::Answered::answered))]
pub fn stamp<S: System>(system: &S, path: &ByteText) -> Result<Reply, NoMemory>
    ensures served { Serves (StampAsk path.now) result }
    ensures told { IsUtf8 path.now → IfOk result (Replies S.answers (StampAsk path.now)) }
    ensures strange { (IsUtf8 path.now → ⊥) → IfOk result (λ reply. reply ≡ Fault) }
{
    match text_of(path) {
        Some(name) => stamped(system.stamp_file(name)),
        None => Ok(Reply::Fault),
    }
}
