//! Laws of histories: a text spells one statement; what an open transaction has done, its statements with their replies, its
//! savepoints and its changes; and that want of pages is told truly. Each function has an empty body: its contract is the law.
#![tactic(auto)]

mod one_tree;
mod page_errors;
mod work;

pub use one_tree::{
    a_history_has_one_replay, a_session_has_one_setting, a_text_has_one_outcome,
    a_text_spells_each_statement_of_the_tree, a_text_spells_one_tree,
    an_item_asks_for_one_statement, bytes_are_one_list_of_tokens, one_tree_has_one_outcome,
};
pub use page_errors::want_of_pages_is_told_truly;
pub use work::work_answers_alone;
