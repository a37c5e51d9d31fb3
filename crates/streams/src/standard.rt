//! Placeholders for closed standard streams, so that nothing else takes their descriptors.

use std::fs::{File, Files};
use std::os::fd::AsRawFd;

/// The number of standard streams. Their descriptors are the numbers below it.
const STREAMS: i32 = 3;

/// The descriptor of standard error. Those of standard input and output are below it.
const ERRORS: i32 = 2;

/// Directories opened in place of closed standard streams. A call on one fails as on a closed
/// stream, and no connection gets its descriptor.
#[derive(Drop)]
pub struct Held {
    first: Option<File>,
    _others: (Option<File>, Option<File>),
}

impl Held {
    /// Opens a directory in place of each closed standard stream. Call it before anything else is
    /// opened.
    pub fn open(files: &impl Files<File = File>) -> Self {
        Held {
            first: hold(files),
            _others: (hold(files), hold(files)),
        }
    }

    /// Whether standard input or standard output was closed. The first directory has the lowest
    /// descriptor that was free.
    pub fn lacks_input_or_output(&self) -> bool {
        matches!(&self.first, Some(folder) if folder.as_raw_fd() < ERRORS)
    }
}

/// Opens a directory at the lowest free descriptor, if that is a standard stream's.
fn hold(files: &impl Files<File = File>) -> Option<File> {
    let folder = File::open(files, "/").ok()?;
    (folder.as_raw_fd() < STREAMS).then_some(folder)
}
