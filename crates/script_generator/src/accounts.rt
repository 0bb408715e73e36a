//! The setup part: the table of accounts and its rows.
//! `sessions` alone asks, for the first items of a generated script.

ghost use Rattle.std.specs.Prelude.{◌≡◌, ◌++◌, IfOk, OnOk, codes};
ghost use Rattle.std.specs.Fmt.{decimal};
ghost use Rattle.script_generator.specs.Generated as spelled;

use crate::pieces::{push_number, push_text};
use crate::transfer::{push_statement, push_text_item};
use inno_types::Listed;
use script::ScriptItem;
use std::alloc::{AllocError, Global};

const MORE_ACCOUNTS: u32 = 15;

#[tactic(auto, unfolding(crate::specs::Generated::setup))]
pub(crate) fn push_setup(alloc: Global, items: &mut Listed<ScriptItem>) -> Result<(), AllocError>
    ensures { OnOk result (items.new ≡ items.old ++ spelled.setup) }
{
    let create = "CREATE TABLE acct (id BIGINT, bal BIGINT, PRIMARY KEY (id))";
    push_text_item(alloc, items, 0, create)?;
    push_statement(items, 0, insert_text(alloc)?)
}

#[tactic(auto, unfolding(crate::specs::Generated::insert_text))]
fn insert_text(alloc: Global) -> Result<Vec<u8>, AllocError>
    ensures { IfOk result (λ text. text.items ≡ spelled.insert_text) }
{
    let mut text = Vec::from_slice(alloc, "INSERT INTO acct VALUES (1,100)".as_bytes())?;
    push_more(alloc, &mut text)?;
    Ok(text)
}

/// The accounts behind the first.
fn push_more(alloc: Global, text: &mut Vec<u8>) -> Result<(), AllocError>
    ensures { OnOk result (text.new.items ≡ text.old.items ++ spelled.more_accounts 15) }
{
    for n in 0..MORE_ACCOUNTS {
        push_account(alloc, text, n + 2)?;
    }
    Ok(())
}

fn push_account(alloc: Global, text: &mut Vec<u8>, id: u32) -> Result<(), AllocError>
    ensures { OnOk result (text.new.items ≡ text.old.items ++ (codes ",(" ++ (decimal id ++ codes ",100)"))) }
{
    push_text(text, ",(")?;
    push_number(alloc, text, u64::from(id))?;
    push_text(text, ",100)")
}
