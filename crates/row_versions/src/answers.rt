//! What a chain answers where it shows no version.
//! Worlds answer by it, to those who follow a roll pointer; nothing here follows one.

use store_api::Visit;

/// Why a version isn't shown: its page isn't, or memory ran out.
#[derive(Clone, Copy)]
pub enum ChainBad {
    Visit(Visit),
    NoMemory,
}
