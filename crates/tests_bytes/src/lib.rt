//! Keys, rows, pages and the catalog on bytes that are known from outside, each public call once with ample memory.
//! There is nothing here but tests.
#![tactic(auto)]

#[cfg(test)]
mod free_pages;
#[cfg(test)]
mod key_entries;
#[cfg(test)]
mod keys;
#[cfg(test)]
mod pages;
#[cfg(test)]
mod records;
#[cfg(test)]
mod sums;
#[cfg(test)]
mod table_entries;
#[cfg(test)]
mod tables;
