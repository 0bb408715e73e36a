//! From bytes to the tokens that they spell, exactly.
//! Nothing here knows of statements: the parser stands above.
#![tactic(auto)]

mod blank;
mod class;
mod lexed;
mod quote;
mod token;
mod word;

pub use blank::after_blank;
pub use lexed::{Lexed, lex};
pub use token::token_at;
pub use word::{capitals, other_words, reserved_words, spelling};
