//! Lists of files.
ghost use Rattle.std.specs.Prelude.{◌≡◌};
ghost use Rattle.bds_tasks.specs.Files.{is_among, meet};

use bds_value::ByteText;

/// A file is one of these.
pub(crate) fn is_among(files: &[ByteText], file: &[u8]) -> bool
    ensures { result ≡ is_among files.now file.now }
{
    for other in files {
        if other.as_slice() == file {
            return true;
        }
    }
    false
}

/// Two lists have a file in common.
pub(crate) fn meet(files: &[ByteText], others: &[ByteText]) -> bool
    ensures { result ≡ meet files.now others.now }
{
    for file in files {
        if is_among(others, file.as_slice()) {
            return true;
        }
    }
    false
}
