//! Reads a script, one part after another. What the parts are is told by `part_at`; here they get their
//! meaning: whose items they are, and which limit they pass.

ghost use Rattle.std.specs.Prelude.{◌≡◌, ◌<◌, ◌≤◌, ◌+◌, ◌++◌, ◌∷◌, [], ℕ, List, Result, length, IfOk, OnOk, IfErr, codes};
ghost use Rattle.inno_types.specs.declared.reply.Item.TheVariants as items;
ghost use Rattle.script.specs.Directives as directives;
ghost use Rattle.script.specs.declared.directive.Directive.TheVariants as directive;
ghost use Rattle.script.specs.declared.script.Script.{Script as ScriptValue};
ghost use Rattle.script.specs.declared.script.ScriptBad.{ScriptBad as ScriptBadValue};
ghost use Rattle.script.specs.declared.script.Directives.{Directives as DirectivesValue};
ghost use Rattle.script.specs.Reading as spelled;
ghost use Rattle.script.specs.Script.{Means, Spells, IsPlayable, IsRefused};

use crate::script::{Directives, Limited, Script, ScriptBad, ScriptItem, Tick};
use crate::{Directive, Part, directive_at, line_at, part_at};
use inno_types::{Bytes, Item, Listed};
use std::alloc::{AllocError, Global};
use store_api::{MOST_ITEMS, MOST_SESSIONS_OF_SCRIPT};

const MOST_STATEMENT_BYTES: usize = 4096;

const MOST_BYTES: usize = 67_108_864;

/// Reads a script, all of the bytes.
pub fn read_script(alloc: Global, bytes: &[u8], allowed: Directives) -> Result<Script, ScriptBad>
    ensures spells { IfOk result (Spells allowed bytes.now) }
    ensures playable { IfOk result (IsPlayable allowed) }
    ensures refused { IfErr result (IsRefused allowed bytes.now) }
{
    let mut reading = Reading::new(alloc)?;
    while reading.at < bytes.len() {
        reading.step(alloc, bytes, allowed)?;
    }
    reading.finish(alloc, bytes)
}

/// Bytes have one meaning: they are one script, or none for one reason.
pub fn one_meaning()
    ensures { (allowed : DirectivesValue) (bytes : List ℕ) (one other : Result ScriptValue ScriptBadValue) → Means allowed bytes one → Means allowed bytes other → one ≡ other }
{}

/// The bytes of a statement, from its first token to its last.
#[derive(Clone, Copy)]
pub struct Span {
    pub from: usize,
    pub to: usize,
}

/// How far a script is read: what it says so far, the number of the session that was named last, the place of the
/// next part, and the statement under way.
#[derive(Drop)]
pub struct Reading {
    pub script: Script,
    pub s: u32,
    pub at: usize,
    pub statement: Option<Span>,
}

impl Reading {
    fn new(alloc: Global) -> Result<Self, AllocError>
        ensures { IfOk result (λ reading. reading ≡ spelled.begun) }
    {
        let mut names = Listed::new(alloc);
        names.push(setup_name(alloc)?)?;
        Ok(Reading {
            script: Script {
                names,
                items: Listed::new(alloc),
                ticks: Listed::new(alloc),
            },
            s: 0,
            at: 0,
            statement: None,
        })
    }

    /// Reads the next part.
    fn step(&mut self, alloc: Global, bytes: &[u8], allowed: Directives) -> Result<(), ScriptBad>
        requires more { self.old.at < length bytes.now }
        requires placed { spelled.IsPlaced (length bytes.now) self.old }
        ensures told { spelled.Tells (spelled.step allowed bytes.now self.old) result self.new }
        ensures nearer { OnOk result (self.old.at < self.new.at) }
        ensures placed { OnOk result (spelled.IsPlaced (length bytes.now) self.new) }
    {
        if bytes.len() > MOST_BYTES && self.at >= MOST_BYTES {
            return Err(over(Limited::Script, MOST_BYTES));
        }
        match part_at(bytes, self.at, self.statement.is_some()) {
            Part::Directive => self.obey(alloc, bytes, allowed),
            Part::Blank { end } => {
                self.at = end;
                Ok(())
            }
            Part::Semicolon => {
                self.close(alloc, bytes)?;
                self.at += 1;
                Ok(())
            }
            Part::Token { end } => self.extend(end),
            Part::Unended => Err(bad_line(bytes, self.at)),
        }
    }

    /// Ends the statement under way, if there is one.
    fn close(&mut self, alloc: Global, bytes: &[u8]) -> Result<(), AllocError>
        requires { spelled.IsPlaced (length bytes.now) self.old }
        ensures { OnOk result (self.new ≡ spelled.closed bytes.now self.old) }
    {
        let Some(span) = self.statement else {
            return Ok(());
        };
        let text = Vec::from_slice(alloc, &bytes[span.from..span.to])?;
        self.script.items.push(ScriptItem {
            s: self.s,
            item: Item::Sql(Listed::from_vec(text)),
        })?;
        self.statement = None;
        Ok(())
    }

    /// Puts some bytes at the end of the statement under way, or begins one.
    fn extend(&mut self, end: usize) -> Result<(), ScriptBad>
        requires { self.old.at < end }
        ensures told { spelled.Tells (spelled.extended self.old end) result self.new }
    {
        let from = match self.statement {
            Some(span) => span.from,
            None => {
                if self.script.items.len() >= MOST_ITEMS as usize {
                    return Err(over(Limited::Items, MOST_ITEMS as usize));
                }
                self.at
            }
        };
        if end.saturating_sub(from) > MOST_STATEMENT_BYTES {
            return Err(over(Limited::Statement, MOST_STATEMENT_BYTES));
        }
        self.statement = Some(Span { from, to: end });
        self.at = end;
        Ok(())
    }

    /// Does what the directive says whose line begins here.
    fn obey(&mut self, alloc: Global, bytes: &[u8], allowed: Directives) -> Result<(), ScriptBad>
        requires more { self.old.at < length bytes.now }
        requires near { self.old.at < u32.MAX }
        ensures told { spelled.Tells (spelled.obeyed allowed bytes.now self.old) result self.new }
        ensures nearer { OnOk result (self.old.at < self.new.at) }
        ensures within { OnOk result (self.new.at ≤ length bytes.now) }
        ensures statement { OnOk result (self.new.statement ≡ self.old.statement) }
    {
        let Some((directive, rest)) = directive_at(alloc, &bytes[self.at..])? else {
            return Err(bad_line(bytes, self.at));
        };
        let end = bytes.len() - rest.len();
        self.hear(bytes, directive, allowed)?;
        self.at = end;
        Ok(())
    }

    fn hear(
        &mut self,
        bytes: &[u8],
        directive: Directive,
        allowed: Directives,
    ) -> Result<(), ScriptBad>
        requires more { self.old.at < length bytes.now }
        requires near { self.old.at < u32.MAX }
        ensures told { spelled.Tells (spelled.heard allowed bytes.now self.old directive) result self.new }
        ensures at { OnOk result (self.new.at ≡ self.old.at) }
        ensures statement { OnOk result (self.new.statement ≡ self.old.statement) }
    {
        match directive {
            Directive::Session(name) => self.name_session(bytes, name),
            Directive::Signal(name) => self.add_signal(bytes, Item::Signal(name), allowed),
            Directive::Await(name) => self.add_signal(bytes, Item::Await(name), allowed),
            Directive::Tick(seconds) => {
                if !allowed.ticks {
                    return Err(bad_line(bytes, self.at));
                }
                let items = self.script.items.len();
                self.script.ticks.push(Tick { items, seconds })?;
                Ok(())
            }
        }
    }

    fn name_session(&mut self, bytes: &[u8], name: Bytes) -> Result<(), ScriptBad>
        requires more { self.old.at < length bytes.now }
        requires near { self.old.at < u32.MAX }
        ensures told { spelled.Tells (spelled.named bytes.now self.old name) result self.new }
        ensures at { OnOk result (self.new.at ≡ self.old.at) }
        ensures statement { OnOk result (self.new.statement ≡ self.old.statement) }
    {
        if name.as_slice() == "setup".as_bytes() {
            return Err(bad_line(bytes, self.at));
        }
        let number = place_of(self.script.names.as_slice(), name.as_slice());
        if number > MOST_SESSIONS_OF_SCRIPT as usize {
            return Err(over(Limited::Sessions, MOST_SESSIONS_OF_SCRIPT as usize));
        }
        self.s = number as u32;
        if number == self.script.names.len() {
            self.script.names.push(name)?;
        }
        Ok(())
    }

    fn add_signal(&mut self, bytes: &[u8], item: Item, allowed: Directives) -> Result<(), ScriptBad>
        requires more { self.old.at < length bytes.now }
        requires near { self.old.at < u32.MAX }
        ensures told { spelled.Tells (spelled.signalled allowed bytes.now self.old item) result self.new }
        ensures at { OnOk result (self.new.at ≡ self.old.at) }
        ensures statement { OnOk result (self.new.statement ≡ self.old.statement) }
    {
        if !allowed.signals || self.s == 0 {
            return Err(bad_line(bytes, self.at));
        }
        if self.script.items.len() >= MOST_ITEMS as usize {
            return Err(over(Limited::Items, MOST_ITEMS as usize));
        }
        self.script.items.push(ScriptItem { s: self.s, item })?;
        Ok(())
    }

    /// The script, all of which is read.
    fn finish(mut self, alloc: Global, bytes: &[u8]) -> Result<Script, ScriptBad>
        requires { spelled.IsPlaced (length bytes.now) self }
        ensures ok { IfOk result (λ script. spelled.finished bytes.now self ≡ Ok script) }
        ensures err { IfErr result (λ bad. spelled.IsTold bad (spelled.finished bytes.now self)) }
    {
        if bytes.len() > MOST_BYTES {
            return Err(over(Limited::Script, MOST_BYTES));
        }
        self.close(alloc, bytes)?;
        Ok(self.script)
    }
}

fn setup_name(alloc: Global) -> Result<Bytes, AllocError>
    ensures { IfOk result (λ name. name ≡ codes "setup") }
{
    Ok(Listed::from_vec(Vec::from_slice(alloc, "setup".as_bytes())?))
}

/// The place of a name among others, or their number.
fn place_of(names: &[Bytes], name: &[u8]) -> usize
    ensures place { result ≡ spelled.number_of name.now names.now }
    ensures within { result ≤ length names.now }
{
    for (i, other) in names.iter().enumerate() {
        if other.as_slice() == name {
            return i;
        }
    }
    names.len()
}

fn bad_line(bytes: &[u8], at: usize) -> ScriptBad
    requires within { at ≤ length bytes.now }
    requires near { at < u32.MAX }
    ensures { result ≡ spelled.bad_line bytes.now at }
{
    ScriptBad::Line {
        line: line_at(bytes, at),
    }
}

/// One more than this limit allows.
fn over(what: Limited, most: usize) -> ScriptBad
    requires { most < u32.MAX }
    ensures { result ≡ spelled.over what most }
{
    let most = most as u64;
    ScriptBad::Limit {
        what: what as u8,
        found: most + 1,
        most,
    }
}
