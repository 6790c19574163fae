//! The parts of a path.
ghost use Rattle.std.specs.Prelude.{◌≡◌};
ghost use Rattle.bds_lib.specs.Paths.{base_name, dir_name, ext_name, remove_ext};

use crate::searching::last_place;

/// What stands behind the last slash of a path.
pub fn base_name(path: &[u8]) -> &[u8]
    ensures { result.now ≡ base_name path.now }
{
    match last_place(path, b"/") {
        Some(at) => path.split_at(at + 1).1,
        None => path,
    }
}

/// What stands before the last slash of a path.
pub fn dir_name(path: &[u8]) -> &[u8]
    ensures { result.now ≡ dir_name path.now }
{
    match last_place(path, b"/") {
        Some(0) => b"/",
        Some(at) => path.split_at(at).0,
        None => b".",
    }
}

/// What stands behind the last dot of a path's base name.
pub fn ext_name(path: &[u8]) -> &[u8]
    ensures { result.now ≡ ext_name path.now }
{
    let base = base_name(path);
    match last_place(base, b".") {
        Some(at) => base.split_at(at + 1).1,
        None => b"",
    }
}

/// The path without the last dot of its base name and what follows it.
pub fn remove_ext(path: &[u8]) -> &[u8]
    ensures { result.now ≡ remove_ext path.now }
{
    if last_place(base_name(path), b".").is_none() {
        return path;
    }
    match last_place(path, b".") {
        Some(at) => path.split_at(at).0,
        None => path,
    }
}
