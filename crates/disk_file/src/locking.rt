//! Files that one process at a time may have open.
//! Only the disk asks for this; a source is read by any number of processes.

use std::fs::{File, Files, TryLockError};
use std::io;

/// A file system whose open files can be locked.
pub trait LockFiles: Files {
    /// Locks an open file until it is closed, and answers false where another one who has opened it holds its lock.
    fn lock_alone(&self, file: &Self::File) -> io::Result<bool>;
}

impl LockFiles for HostRuntime {
    fn lock_alone(&self, file: &File) -> io::Result<bool> {
        match file.try_lock() {
            Ok(()) => Ok(true),
            Err(TryLockError::WouldBlock) => Ok(false),
            Err(TryLockError::Error(error)) => Err(error),
        }
    }
}

impl<R: LockFiles> LockFiles for &R {
    fn lock_alone(&self, file: &R::File) -> io::Result<bool> {
        (**self).lock_alone(file)
    }
}
