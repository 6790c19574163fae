//! What stands where a file is saved.
ghost use Rattle.std.specs.Prelude.{◌≡◌, ◌≤◌, IfOk, MatchOption};

use std::alloc::Global;
use std::fs::{Files, OpenOptions};
use std::io::ErrorKind;
use std::os::unix::fs::PermissionsExt;
use std::path::Path;
use std::{fs, io};

/// How many links are followed from a path to the file that is meant.
const MOST_LINKS: u32 = 40;

/// The bits of a mode that say who may do what.
const RIGHTS: u32 = 0o7777;

/// Where a save goes.
#[derive(Drop)]
pub enum Target {
    /// A file at this path, behind all links, with the mode that it keeps where it is there.
    File(String, Option<u32>),
    /// A device, a pipe, or what else is no file: it is written as it stands.
    Other,
}

/// The path that a link names, seen from the folder that the link stands in.
fn linked<R: Files>(alloc: Global, rt: &R, link: &str) -> io::Result<String> {
    let to = rt.read_link(alloc, link)?;
    let found = match Path::new(link).parent() {
        Some(folder) => folder.join(alloc, to.as_str())?,
        None => to,
    };
    Ok(String::from_str(alloc, found.as_str())?)
}

/// Whether a link stands at a path, where nothing may stand either.
fn is_link<R: Files>(rt: &R, path: &str) -> io::Result<bool> {
    match fs::symlink_metadata(rt, path) {
        Ok(found) => Ok(found.is_symlink()),
        Err(error) if error.kind() == ErrorKind::NotFound => Ok(false),
        Err(error) => Err(error),
    }
}

/// The path behind all links that stand at a path, or none where more than 40 follow each other, as the system itself
/// follows no more. They are counted.
fn behind_links<R: Files>(
    alloc: Global,
    rt: &R,
    path: &str,
    links: &mut u32,
) -> io::Result<Option<String>>
    ensures given_up { IfOk result (λ found. MatchOption found (links.new ≡ 41) (λ _. links.new ≤ 40)) }
{
    let mut path = String::from_str(alloc, path)?;
    *links = 0;
    for _ in 0..=MOST_LINKS {
        if !is_link(rt, path.as_str())? {
            return Ok(Some(path));
        }
        path = linked(alloc, rt, path.as_str())?;
        *links += 1;
    }
    Ok(None)
}

/// Where a save to a path goes. A file that may not be written is an error: who moves another one over it isn't asked
/// for that right.
pub fn target_of<R: Files>(alloc: Global, rt: &R, path: &str) -> io::Result<Target> {
    let mode = match fs::metadata(rt, path) {
        Ok(found) if !found.is_file() => return Ok(Target::Other),
        Ok(found) => Some(found.permissions().mode() & RIGHTS),
        Err(error) if error.kind() == ErrorKind::NotFound => None,
        Err(error) => return Err(error),
    };
    if mode.is_some() {
        OpenOptions::new().write(true).open(rt, path)?;
    }
    let mut links = 0;
    match behind_links(alloc, rt, path, &mut links)? {
        Some(file) => Ok(Target::File(file, mode)),
        None => Err(io::Error::from(ErrorKind::InvalidInput)),
    }
}
