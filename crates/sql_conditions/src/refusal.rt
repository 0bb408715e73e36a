//! Why a part of a statement could not be read.
//! Every reader of tokens refuses by this alone, and `sql_text` tells it on.

ghost use Rattle.std.specs.Prelude.{◌≡◌, length};
ghost use Rattle.sql_conditions.specs.declared.refusal.Refusal.TheVariants.{NoMemory, Unexpected};

use sql_grammar::Token;
use std::alloc::{AllocError, AllocFailed};

#[derive(Drop)]
pub enum Refusal {
    /// So many tokens were left when the first of them, or the end, could not stand there.
    Unexpected { left: usize },
    NoMemory,
}

impl From<AllocError> for Refusal {
    ghost from_gives = { λ _ e. e ≡ NoMemory };

    fn from(_e: AllocError) -> Refusal {
        Refusal::NoMemory
    }
}

impl<T: Drop> From<AllocFailed<T>> for Refusal {
    ghost from_gives = { λ _ e. e ≡ NoMemory };

    fn from(_e: AllocFailed<T>) -> Refusal {
        Refusal::NoMemory
    }
}

/// The refusal of the first of these tokens, or of the end.
pub fn unexpected(tokens: &[Token]) -> Refusal
    ensures { result ≡ Unexpected (length tokens.now) }
{
    Refusal::Unexpected { left: tokens.len() }
}
