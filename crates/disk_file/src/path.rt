//! The names of files.
//! `FileDisk` and `FileSource` ask for theirs when they are made. Nothing is opened here.

use std::alloc::{AllocError, Global};

/// The path that these bytes and an ending spell, or None where they are no text.
pub fn path_of(alloc: Global, name: &[u8], ending: &str) -> Result<Option<String>, AllocError> {
    let Ok(text) = str::from_utf8(name) else {
        return Ok(None);
    };
    let mut path = String::from_str(alloc, text)?;
    path.push_str(ending)?;
    Ok(Some(path))
}
