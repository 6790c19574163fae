//! Why a run stops before it is done.

/// Why a run stops before it is done.
#[derive(Clone, Copy, Debug, PartialEq, Eq)]
pub enum RunStop {
    /// A reply of the host was a fault. It was told.
    Device,
    /// All ticks are used, and the next step would count one.
    Ticks,
    NoMemory,
}
