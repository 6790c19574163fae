//! The lock of the folder in which tasks are run.
use std::fs::{File, Files, TryLockError};
use std::io;
use std::io::ErrorKind;

/// Locks of files. A lock goes with the process that holds it, however that ends.
pub trait Locks: Files {
    /// Takes the lock of a file, unless another process holds it. Where the file system knows no locks nobody holds one.
    fn try_lock(&self, file: &Self::File) -> io::Result<bool>;
}

impl Locks for HostRuntime {
    fn try_lock(&self, file: &File) -> io::Result<bool> {
        match file.try_lock() {
            Ok(()) => Ok(true),
            Err(TryLockError::WouldBlock) => Ok(false),
            Err(TryLockError::Error(error)) if error.kind() == ErrorKind::Unsupported => Ok(true),
            Err(TryLockError::Error(error)) => Err(error),
        }
    }
}
