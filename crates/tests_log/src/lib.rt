//! The bytes of the log and its reader, what crashes leave of groups and of pages, and what disks in memory, files and failing
//! files do. There is nothing here but tests.
#![tactic(auto)]

#[cfg(test)]
mod disks_in_memory;
#[cfg(test)]
mod failing_files;
#[cfg(test)]
mod files;
#[cfg(test)]
mod files_that_fail;
#[cfg(test)]
mod groups;
#[cfg(test)]
mod halves;
#[cfg(test)]
mod mounts;
#[cfg(test)]
mod packing;
#[cfg(test)]
mod placed_pages;
