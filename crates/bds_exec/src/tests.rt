//! What the device does, asked of the real one, and of one that stands in for its files and streams.
mod asking;
mod device;
mod recorded;
mod tasks;
