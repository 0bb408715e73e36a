//! A transfer between two accounts: drawn by a generator of words, and as the statements of a transaction.
//! `sessions` draws and spells transfers; `accounts` spells its statements by the same functions.

ghost use Rattle.std.specs.Prelude.{◌≡◌, ◌++◌, ◌∷◌, [], IfOk, OnOk};
ghost use Rattle.script_generator.specs.Transfers as spelled;

use crate::pieces::{push_number, push_text};
use inno_types::{Item, Listed};
use rand_core::utils::NextWord;
use rand_xoshiro::SplitMix64;
use script::ScriptItem;
use std::alloc::{AllocError, Global};

const ACCOUNTS: u64 = 16;

/// So much of the one account goes to the other.
#[derive(Clone, Copy)]
pub struct Transfer {
    pub from: u64,
    pub to: u64,
    pub amount: u64,
}

/// Draws a transfer.
#[tactic(auto, unfolding(crate::specs::Transfers::drawn, crate::specs::Transfers::after_transfer))]
pub(crate) fn draw(words: &mut SplitMix64) -> Transfer
    ensures value { result ≡ spelled.drawn words.old }
    ensures after { words.new ≡ spelled.after_transfer words.old }
{
    let from = 1 + words.next_word() % ACCOUNTS;
    let to = 1 + words.next_word() % ACCOUNTS;
    let amount = words.next_word() % ACCOUNTS;
    let to = if to == from { from % ACCOUNTS + 1 } else { to };
    Transfer { from, to, amount }
}

/// The items of a transaction that makes the transfer.
#[tactic(auto, unfolding(crate::specs::Transfers::transaction))]
pub(crate) fn push_transaction(
    alloc: Global,
    items: &mut Listed<ScriptItem>,
    s: u32,
    transfer: &Transfer,
) -> Result<(), AllocError>
    ensures { OnOk result (items.new ≡ items.old ++ spelled.transaction s transfer.now) }
{
    push_text_item(alloc, items, s, "BEGIN")?;
    push_updates(alloc, items, s, transfer)?;
    push_text_item(alloc, items, s, "COMMIT")
}

/// The two changes, that of the account with the smaller number first.
#[tactic(auto, unfolding(crate::specs::Transfers::updates))]
fn push_updates(
    alloc: Global,
    items: &mut Listed<ScriptItem>,
    s: u32,
    transfer: &Transfer,
) -> Result<(), AllocError>
    ensures { OnOk result (items.new ≡ items.old ++ spelled.updates s transfer.now) }
{
    let taking = update_text(alloc, "- ", transfer.amount, transfer.from)?;
    let giving = update_text(alloc, "+ ", transfer.amount, transfer.to)?;
    if transfer.from < transfer.to {
        push_pair(items, s, taking, giving)
    } else {
        push_pair(items, s, giving, taking)
    }
}

fn push_pair(
    items: &mut Listed<ScriptItem>,
    s: u32,
    first: Vec<u8>,
    second: Vec<u8>,
) -> Result<(), AllocError>
    ensures { OnOk result (items.new ≡ items.old ++ spelled.pair s first.items second.items) }
{
    push_statement(items, s, first)?;
    push_statement(items, s, second)
}

fn update_text(alloc: Global, sign: &str, amount: u64, id: u64) -> Result<Vec<u8>, AllocError>
    ensures { IfOk result (λ text. text.items ≡ spelled.change_text sign.now amount ++ spelled.where_text id) }
{
    let mut text = Vec::new(alloc);
    push_change(alloc, &mut text, sign, amount)?;
    push_where(alloc, &mut text, id)?;
    Ok(text)
}

fn push_change(alloc: Global, out: &mut Vec<u8>, sign: &str, amount: u64) -> Result<(), AllocError>
    ensures { OnOk result (out.new.items ≡ out.old.items ++ spelled.change_text sign.now amount) }
{
    push_text(out, "UPDATE acct SET bal = bal ")?;
    push_text(out, sign)?;
    push_number(alloc, out, amount)
}

fn push_where(alloc: Global, out: &mut Vec<u8>, id: u64) -> Result<(), AllocError>
    ensures { OnOk result (out.new.items ≡ out.old.items ++ spelled.where_text id) }
{
    push_text(out, " WHERE id = ")?;
    push_number(alloc, out, id)
}

/// A statement of the session.
pub(crate) fn push_statement(
    items: &mut Listed<ScriptItem>,
    s: u32,
    text: Vec<u8>,
) -> Result<(), AllocError>
    ensures { OnOk result (items.new ≡ items.old ++ spelled.statement s text.items ∷ []) }
{
    let item = Item::Sql(Listed::from_vec(text));
    items.push(ScriptItem { s, item })
}

pub(crate) fn push_text_item(
    alloc: Global,
    items: &mut Listed<ScriptItem>,
    s: u32,
    text: &str,
) -> Result<(), AllocError>
    ensures { OnOk result (items.new ≡ items.old ++ spelled.statement s text.now ∷ []) }
{
    push_statement(items, s, Vec::from_slice(alloc, text.as_bytes())?)
}
