//! The versions of the format.

/// A version of the format. Files are written in the second; both are loaded.
#[derive(Clone, Copy)]
pub(crate) enum Version {
    /// Without a trailer.
    First,
    /// With a trailer, which is the SHA-256 of all bytes before it.
    Second,
}
