//! The model of the storage engine: which histories it may have, and what their texts are; and the board, which says what
//! threads that share an engine know of it. Everything that is proved of the engine is stated by the definitions of specs/.
#![tactic(auto)]

mod board;
mod event;
mod history;

pub use board::{Board, Phase, Recorded};
pub use event::Event;
pub use history::History;
pub use inno_db::{Change, Db};
