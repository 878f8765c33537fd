//! Whether two names lead to one file.

use std::os::unix::fs::MetadataExt;
use std::{fs, rt};

/// Whether two paths lead to one file, whatever links there are.
pub(crate) fn is_same_file<R: rt::Files>(rt: &R, first: &str, second: &str) -> bool {
    match (fs::metadata(rt, first), fs::metadata(rt, second)) {
        (Ok(first), Ok(second)) => first.dev() == second.dev() && first.ino() == second.ino(),
        _ => false,
    }
}
