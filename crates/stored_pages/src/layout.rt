//! Where the fields of every page stand, which pages are fixed, what page 0 and the map hold, and how many copies Double has.
//! Every crate over pages takes these numbers from here; those of pages of trees stand in `page_format`. No code stands here.

/// How many bytes a page has.
pub const PAGE: usize = 4096;

/// How many copies of pages the area Double holds.
pub const SLOTS: usize = 64;

/// How many bytes the area Double has.
pub const DOUBLE: usize = SLOTS * PAGE;

/// The byte of a page where its sum begins, 8 bytes.
pub const SUM: usize = 0;

/// The byte of a page where its number begins, 4 bytes. The sum is that of the bytes from here on.
pub const NUMBER: usize = 8;

/// The byte of a page where its LSN begins, 8 bytes.
pub const LSN: usize = 12;

/// The byte of a page where its fields begin, the first one that a mini-transaction may put.
pub const FIELDS: usize = 20;

/// The first page of the map of used pages.
pub const FIRST_MAP_PAGE: u32 = 2;

/// How many pages the map has.
pub const MAP_PAGES: u32 = 3;

/// The first page of the catalog, that of table 0.
pub const FIRST_CATALOG_PAGE: u32 = 5;

/// How many pages have a use of their own, from page 0 on. The others are for trees; a file has no fewer.
pub const FIXED_PAGES: u32 = 21;

/// The byte of page 0 where the magic number begins, 8 bytes.
pub const MAGIC: usize = 32;

/// The magic number, `INNODPRF`.
pub const MAGIC_NUMBER: u64 = 5_282_245_515_307_668_038;

/// The byte of page 0 where the version of the files begins, 4 bytes.
pub const VERSION: usize = 40;

/// The byte of page 0 where the count of pages that the file may have begins, 4 bytes.
pub const PAGE_COUNT: usize = 44;

/// The byte of page 0 where the log's run begins, 8 bytes.
pub const RUN: usize = 48;

/// The byte of page 0 where the LSN of the run's first group begins, 8 bytes.
pub const FIRST_LSN: usize = 56;

/// The byte of a page of the map where its bits begin.
pub const BITS: usize = 32;

/// How many pages one page of the map has bits of.
pub const COVERED: u32 = 32_512;
