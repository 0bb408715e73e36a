//! How far a step of a session's task came, and which rows a search is to see.
//! Whatever keeps the lists answers by these; statements get them by way of `SqlLists`.

use inno_types::Rows;
use std::convert::Infallible;
use store_api::Stepped;

/// How a session reads.
#[derive(Clone, Copy)]
pub enum Reading {
    /// By its transaction's view.
    View,
    /// As rows are newest. The session alone may write.
    Newest,
}

/// What hinders a step of a search or of a change.
#[derive(Clone, Copy)]
pub enum Hindrance {
    NoMemory,
    /// The change needs more pages than are free.
    Full { need: u32, free: u32 },
    /// A tree of eight levels would have one more.
    TooDeep,
}

/// How far a search came: the rows that were found, in the order of their primary keys, or that it is given up. A search
/// asks for no pages.
pub type Searched = Stepped<Rows, Hindrance>;

/// How far a change of a row came: which part of it is done, or what it is given up for. If the history tells it by then, it
/// is to be taken back.
pub type Changed = Stepped<ChangePart, Hindrance>;

/// The parts of a change of a row.
#[derive(Clone, Copy)]
pub enum ChangePart {
    /// The row's record, which the history tells from then on. Keys are yet to take it over.
    Record,
    /// The keys of its table.
    Keys,
}

/// How far a taking back came. When it is done, the history says so. It takes no memory, and nothing hinders it.
pub type Undone = Stepped<(), Infallible>;
