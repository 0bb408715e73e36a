//! The kinds of what is kept as bytes: undo records, entries of secondary keys, and the rules that a page may break.
//! Each stands for the number that the files and the answers have for it, which `as u8` gives.

/// What an undo record keeps.
#[derive(Clone, Copy)]
pub enum UndoKind {
    /// That the row was new.
    NewRow = 1,
    /// The version that was there before.
    FormerRow = 2,
}

/// The one byte of an entry's value.
#[derive(Clone, Copy)]
pub enum Mark {
    /// The newest row has the entry's value.
    Unmarked = 0,
    /// It hasn't: older versions may have it.
    Marked = 1,
}

/// The rules of pages, in the order of their numbers. A mount tells the lowest that a page breaks.
#[derive(Clone, Copy)]
pub enum PageRule {
    /// The sum is that of the bytes, and the number that of the place.
    Sum = 0,
    /// Each field and kind is within its values, each page number within the capacity.
    Fields = 1,
    /// Records rise, within the fences.
    Order = 2,
    /// A child has the index, the level and the fences that its parent says.
    Child = 3,
    /// A neighbour is the next page of its level.
    Neighbour = 4,
    /// A used page is reached once.
    Use = 5,
    /// CREATE TABLE could have put the catalog's entry there.
    Table = 6,
    /// The bytes of a key or a value encode one.
    Coding = 7,
}
