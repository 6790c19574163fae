//! Files that are made anew, so that whoever still has an older one of that name open keeps that one.
use std::fs::{Files, OpenFile, OpenOptions, Permissions};
use std::io::ErrorKind;
use std::os::unix::fs::{OpenOptionsExt, PermissionsExt};
use std::{fs, io};

/// Removes the file at a path, where there is one.
pub fn clear<R: Files>(rt: &R, path: &str) -> io::Result<()> {
    match fs::remove_file(rt, path) {
        Err(error) if error.kind() == ErrorKind::NotFound => Ok(()),
        answer => answer,
    }
}

/// A new file at a path, in the place of what stands there. Where it has to have a mode it has it before the first byte
/// is written.
pub fn make<R: Files>(rt: &R, path: &str, mode: Option<u32>) -> io::Result<R::File> {
    clear(rt, path)?;
    let mut how = OpenOptions::new();
    how.write(true).create_new(true);
    let Some(mode) = mode else {
        return how.open(rt, path);
    };
    let file = how.mode(mode).open(rt, path)?;
    file.set_permissions(Permissions::from_mode(mode))?;
    Ok(file)
}
