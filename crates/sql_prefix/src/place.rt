//! The longest front of some bytes that begins a statement, found by steps from the first fault on.
//! The place of a refusal comes from here.

ghost use Rattle.std.specs.Prelude.{◌≡◌, ℕ, ◌+◌, ◌-◌, ◌<◌, ◌≤◌, List, ◌++◌, length, take, IfOk};
ghost use Rattle.sql_prefix.specs.Prefix.{Begins, IsBetween, IsLongestPrefix};

use crate::prefix::begins;
use sql_text::tokens_left;
use sql_tokens::lex;
use std::alloc::{AllocError, Global};

/// Where the first token begins that no statement has there, or the first byte that begins no token.
fn first_fault(alloc: Global, bytes: &[u8]) -> Result<usize, AllocError>
    ensures { IfOk result (λ at. at ≤ length bytes.now) }
{
    let lexed = lex(alloc, bytes)?;
    let tokens = lexed.tokens.as_slice();
    let first = tokens.len().saturating_sub(tokens_left(alloc, tokens)?);
    let left = lexed.lefts.get(first).copied().unwrap_or(lexed.unread);
    Ok(bytes.len().saturating_sub(left))
}

/// The length of a prefix that begins a statement, which all of the bytes don't.
fn first_prefix(alloc: Global, bytes: &[u8]) -> Result<usize, AllocError>
    requires { Begins bytes.now → ⊥ }
    ensures { IfOk result (λ low. IsBetween bytes.now low (length bytes.now)) }
{
    let at = first_fault(alloc, bytes)?;
    if at < bytes.len() {
        let (front, _) = bytes.split_at(at);
        if begins(alloc, front)? {
            return Ok(at);
        }
    }
    Ok(0)
}

/// Lengths of a prefix that begins a statement and of one that doesn't, nearer to one another.
/// The one between them is so many bytes longer than the shorter one, or stands halfway.
fn narrowed(
    alloc: Global,
    bytes: &[u8],
    low: usize,
    high: usize,
    step: usize,
) -> Result<(usize, usize), AllocError>
    requires apart { low + 1 < high }
    requires goes { 0 < step }
    requires between { IsBetween bytes.now low high }
    ensures between { IfOk result (λ x. IsBetween bytes.now x.0 x.1) }
    ensures nearer { IfOk result (λ x. x.1 - x.0 < high - low) }
{
    let middle = low + step.min((high - low) / 2);
    let (front, _) = bytes.split_at(middle);
    if begins(alloc, front)? {
        return Ok((middle, high));
    }
    Ok((low, middle))
}

/// The byte at which the longest prefix that begins some statement of the grammar ends.
pub fn longest_prefix(alloc: Global, bytes: &[u8]) -> Result<usize, AllocError>
    ensures { IfOk result (λ at. IsLongestPrefix bytes.now at) }
{
    if begins(alloc, bytes)? {
        return Ok(bytes.len());
    }
    let mut low = first_prefix(alloc, bytes)?;
    let mut high = bytes.len();
    let mut step: usize = 1;
    'searching: while high - low > 1 {
        let (new_low, new_high) = narrowed(alloc, bytes, low, high, step)?;
        low = new_low;
        high = new_high;
        step = step.saturating_mul(2);
    }
    Ok(low)
}

/// What begins a statement has only fronts that begin one, so no prefix beyond the longest begins any.
/// The body is empty: the contract is the law.
pub fn no_longer_prefix_begins()
    ensures fronts { (bytes more : List ℕ) → Begins (bytes ++ more) → Begins bytes }
    ensures longest { (bytes : List ℕ) (at n : ℕ) → IsLongestPrefix bytes at → at < n → n ≤ length bytes
        → Begins (take n bytes) → ⊥ }
{}
