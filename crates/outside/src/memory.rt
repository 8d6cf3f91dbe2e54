//! Files and a sink in memory, whose calls fail by number.
mod files;
mod sink;

pub use files::MemFiles;
pub(crate) use files::{copy_from, place_of};
pub use sink::MemSink;
