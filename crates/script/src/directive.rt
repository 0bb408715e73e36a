//! A directive, all of its line. Where it may stand, and what it does, is told by `script`.
//! `reading` alone asks for one, at the place that it has come to.

ghost use Rattle.std.specs.Prelude.{◌≡◌, ◌+◌, ◌<◌, ◌≤◌, length, IfOk, IfSome};
ghost use Rattle.std.specs.Option.{option_map};
ghost use Rattle.script.specs.Directives as spelled;

use crate::line::after_end;
use crate::name::{digits_len, name_len};
use inno_types::{Bytes, Listed};
use std::alloc::{AllocError, Global};

const MOST_NAME_BYTES: usize = 32;

const MOST_DIGITS: usize = 5;

/// Whose items follow, an item of its own, or how far the moment rises.
#[derive(Drop)]
pub enum Directive {
    Session(Bytes),
    Signal(Bytes),
    Await(Bytes),
    Tick(u32),
}

/// What a directive says of its name.
#[derive(Clone, Copy)]
enum Naming {
    Session,
    Signal,
    Await,
}

/// The directive whose line begins here, and what follows the line.
pub fn directive_at(alloc: Global, bytes: &[u8]) -> Result<Option<(Directive, &[u8])>, AllocError>
    ensures value { IfOk result (λ found. option_map (λ x. (x.0, x.1.now)) found ≡ spelled.directive_at bytes.now) }
    ensures shorter { IfOk result (λ found. IfSome found (λ x. length x.1.now < length bytes.now)) }
{
    if let Some(rest) = behind(bytes, b"@session ") {
        return named_at(alloc, Naming::Session, rest);
    }
    if let Some(rest) = behind(bytes, b"@tick ") {
        return Ok(tick_at(rest));
    }
    signal_at(alloc, bytes)
}

/// A directive about a signal.
fn signal_at(alloc: Global, bytes: &[u8]) -> Result<Option<(Directive, &[u8])>, AllocError>
    ensures value { IfOk result (λ found. option_map (λ x. (x.0, x.1.now)) found ≡ spelled.signal_at bytes.now) }
    ensures shorter { IfOk result (λ found. IfSome found (λ x. length x.1.now < length bytes.now)) }
{
    if let Some(rest) = behind(bytes, b"@signal ") {
        return named_at(alloc, Naming::Signal, rest);
    }
    if let Some(rest) = behind(bytes, b"@await ") {
        return named_at(alloc, Naming::Await, rest);
    }
    Ok(None)
}

/// The directive whose name the line ends in.
fn named_at(
    alloc: Global,
    naming: Naming,
    bytes: &[u8],
) -> Result<Option<(Directive, &[u8])>, AllocError>
    ensures value { IfOk result (λ found. option_map (λ x. (x.0, x.1.now)) found ≡ spelled.named_at naming bytes.now) }
    ensures shorter { IfOk result (λ found. IfSome found (λ x. length x.1.now ≤ length bytes.now)) }
{
    match name_at(alloc, bytes)? {
        Some((name, rest)) => Ok(Some((named(naming, name), rest))),
        None => Ok(None),
    }
}

fn named(naming: Naming, name: Bytes) -> Directive
    ensures { result ≡ spelled.named naming name }
{
    match naming {
        Naming::Session => Directive::Session(name),
        Naming::Signal => Directive::Signal(name),
        Naming::Await => Directive::Await(name),
    }
}

/// How far the moment rises.
fn tick_at(bytes: &[u8]) -> Option<(Directive, &[u8])>
    ensures value { option_map (λ x. (x.0, x.1.now)) result ≡ spelled.tick_at bytes.now }
    ensures shorter { IfSome result (λ x. length x.1.now ≤ length bytes.now) }
{
    match number_at(bytes) {
        Some((number, rest)) => Some((Directive::Tick(number), rest)),
        None => None,
    }
}

/// What stands behind the word, where the bytes begin with it.
fn behind<'a>(bytes: &'a [u8], word: &[u8]) -> Option<&'a [u8]>
    ensures value { option_map (λ r. r.now) result ≡ spelled.behind bytes.now word.now }
    ensures shorter { IfSome result (λ r. length r.now + length word.now ≡ length bytes.now) }
{
    if bytes.starts_with(word) {
        Some(&bytes[word.len()..])
    } else {
        None
    }
}

/// The name that the line ends in.
fn name_at(alloc: Global, bytes: &[u8]) -> Result<Option<(Bytes, &[u8])>, AllocError>
    ensures value { IfOk result (λ found. option_map (λ x. (x.0, x.1.now)) found ≡ spelled.name_at bytes.now) }
    ensures shorter { IfOk result (λ found. IfSome found (λ x. length x.1.now ≤ length bytes.now)) }
{
    let len = name_len(bytes);
    if len == 0 || len > MOST_NAME_BYTES {
        return Ok(None);
    }
    match after_end(&bytes[len..]) {
        Some(rest) => {
            let name = Vec::from_slice(alloc, &bytes[..len])?;
            Ok(Some((Listed::from_vec(name), rest)))
        }
        None => Ok(None),
    }
}

/// The number that the line ends in.
fn number_at(bytes: &[u8]) -> Option<(u32, &[u8])>
    ensures value { option_map (λ x. (x.0, x.1.now)) result ≡ spelled.number_at bytes.now }
    ensures shorter { IfSome result (λ x. length x.1.now ≤ length bytes.now) }
{
    let len = digits_len(bytes);
    if len == 0 || len > MOST_DIGITS {
        return None;
    }
    match after_end(&bytes[len..]) {
        Some(rest) => Some((number_of(&bytes[..len]), rest)),
        None => None,
    }
}

/// The number that some digits spell.
fn number_of(digits: &[u8]) -> u32
    requires { length digits.now ≤ MOST_DIGITS }
    ensures { result ≡ spelled.number_of digits.now }
{
    let mut number = 0;
    for digit in digits {
        number = number * 10 + u32::from(digit.saturating_sub(b'0'));
    }
    number
}
