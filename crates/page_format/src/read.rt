//! Why bytes are not read as a page.
//! The refusals come in the order of the variants.

/// Why bytes are no page of a number.
#[derive(Clone, Copy, Debug, PartialEq, Eq)]
pub enum PageBad {
    Sum { stored: u64, computed: u64 },
    Number { found: u32 },
    Shape { rule: u8 },
}
