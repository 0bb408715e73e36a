//! The condition of a WHERE, read with a stack of what waits for an operand.
//! An operand is let go by a call alone: each branch that leaves one behind makes the check much longer.

ghost use Rattle.std.specs.Prelude.{◌≡◌, [], ◌∷◌, List, IfOk};
ghost use Rattle.sql_grammar.specs.declared.token.Token.{Token};
ghost use Rattle.sql_grammar.specs.Grammar.{Condition, Loose};
ghost use Rattle.sql_conditions.specs.Parts.{Gives};
ghost use Rattle.sql_conditions.specs.Conditions as read;
ghost use Rattle.sql_conditions.specs.declared.conditions.Frame.TheVariants.{Open, Or};

use crate::atoms::atom;
use crate::boxes::boxed;
use crate::stack::Stack;
use crate::{Refusal, unexpected};
use inno_types::Filter;
use sql_grammar::{Token, Word};
use std::alloc::Global;

/// What waits for an operand: a NOT, an open bracket, or what stands left of an AND or an OR.
#[derive(Drop)]
pub enum Frame {
    Not,
    Open,
    And(Filter),
    Or(Filter),
}

/// What stands behind an operand.
#[derive(Clone, Copy)]
pub enum Next<'a> {
    And(&'a [Token]),
    Or(&'a [Token]),
    Close(&'a [Token]),
    Other,
}

/// An operand with what waited for it: an operand again, or another one is wanted first.
#[derive(Drop)]
pub enum Closed<'a> {
    Goes(Filter, &'a [Token]),
    Wants(&'a [Token]),
}

/// A whole condition, or another operand is wanted.
#[derive(Drop)]
pub enum After<'a> {
    Whole(Filter, &'a [Token]),
    Wants(&'a [Token]),
}

#[tactic(auto, unfolding(crate::specs::Conditions::follow_of))]
fn next_of(tokens: &[Token]) -> Next<'_>
    ensures { read.follow_by result ≡ read.follow_of tokens.now }
{
    match tokens {
        [Token::Key(Word::And), rest @ ..] => Next::And(rest),
        [Token::Key(Word::Or), rest @ ..] => Next::Or(rest),
        [Token::Close, rest @ ..] => Next::Close(rest),
        _ => Next::Other,
    }
}

/// A condition at the front of the tokens, and what follows it.
pub fn condition(alloc: Global, tokens: &[Token]) -> Result<(Filter, &[Token]), Refusal>
    ensures exact { Gives (λ x. x.1.now) result (read.after_condition tokens.now) }
    ensures spelled { IfOk result (λ x. Condition Loose tokens.now x.0 x.1.now) }
{
    let mut stack = Stack::new(alloc);
    let mut rest = tokens;
    let count = tokens.len();
    for _ in 0..count {
        match step(alloc, &mut stack, rest)? {
            After::Whole(filter, rest) => return Ok((filter, rest)),
            After::Wants(more) => rest = more,
        }
    }
    Err(unexpected(rest))
}

/// One step where an operand is wanted.
#[tactic(auto, unfolding(crate::specs::Conditions::operand_step))]
fn step<'a>(
    alloc: Global,
    stack: &mut Stack<Frame>,
    tokens: &'a [Token],
) -> Result<After<'a>, Refusal>
    ensures exact { Gives (read.stage_of stack.new) result (read.operand_step (read.marks stack.old) tokens.now) }
    ensures spelled { IfOk result (λ after. (all : List Token) → read.Stands all stack.old tokens.now → read.StandsAfter all stack.new after) }
{
    match tokens {
        [Token::Key(Word::Not), rest @ ..] => {
            stack.push(Frame::Not)?;
            Ok(After::Wants(rest))
        }
        [Token::Open, rest @ ..] => {
            stack.push(Frame::Open)?;
            Ok(After::Wants(rest))
        }
        _ => atom_step(alloc, stack, tokens),
    }
}

/// A comparison or a test, with all that waited for it.
fn atom_step<'a>(
    alloc: Global,
    stack: &mut Stack<Frame>,
    tokens: &'a [Token],
) -> Result<After<'a>, Refusal>
    ensures exact { Gives (read.stage_of stack.new) result (read.atom_step (read.marks stack.old) tokens.now) }
    ensures spelled { IfOk result (λ after. (all : List Token) → read.Stands all stack.old tokens.now → read.StandsAfter all stack.new after) }
{
    let (operand, rest) = atom(alloc, tokens)?;
    settle(alloc, stack, operand, rest)
}

/// Joins an operand to all that waited for it, as far as what follows lets it.
fn settle<'a>(
    alloc: Global,
    stack: &mut Stack<Frame>,
    operand: Filter,
    tokens: &'a [Token],
) -> Result<After<'a>, Refusal>
    ensures exact { Gives (read.stage_of stack.new) result (read.settle (read.marks stack.old) tokens.now) }
    ensures spelled { IfOk result (λ after. (all : List Token) → read.HasOperand all stack.old operand tokens.now → read.StandsAfter all stack.new after) }
{
    let mut joined = operand;
    let mut rest = tokens;
    'frames: while let Some(frame) = stack.pop() {
        match close(alloc, stack, frame, joined, rest)? {
            Closed::Goes(more, after) => {
                joined = more;
                rest = after;
            }
            Closed::Wants(after) => return Ok(After::Wants(after)),
        }
    }
    finish(stack, joined, rest)
}

/// With nothing on the stack: whole, or the left side of an operator.
fn finish<'a>(
    stack: &mut Stack<Frame>,
    operand: Filter,
    tokens: &'a [Token],
) -> Result<After<'a>, Refusal>
    requires { stack.old ≡ [] }
    ensures exact { Gives (read.stage_of stack.new) result (read.settle [] tokens.now) }
    ensures spelled { IfOk result (λ after. (all : List Token) → read.HasOperand all [] operand tokens.now → read.StandsAfter all stack.new after) }
{
    match next_of(tokens) {
        Next::And(rest) => {
            stack.push(Frame::And(operand))?;
            Ok(After::Wants(rest))
        }
        Next::Or(rest) => {
            stack.push(Frame::Or(operand))?;
            Ok(After::Wants(rest))
        }
        _ => Ok(After::Whole(operand, tokens)),
    }
}

/// Joins an operand to what waited for it, taken off the stack.
fn close<'a>(
    alloc: Global,
    stack: &mut Stack<Frame>,
    frame: Frame,
    operand: Filter,
    tokens: &'a [Token],
) -> Result<Closed<'a>, Refusal>
    ensures exact { Gives (read.step_of stack.new) result (read.close (read.mark_of frame) (read.marks stack.old) tokens.now) }
    ensures spelled { IfOk result (λ closed. (all : List Token) → read.HasOperand all (frame ∷ stack.old) operand tokens.now → read.ClosesTo all stack.new closed) }
    ensures keeps { IfOk result (λ closed. read.KeepsFrames stack.old stack.new closed) }
{
    match frame {
        Frame::Not => Ok(Closed::Goes(Filter::Not(Box::new(alloc, operand)?), tokens)),
        Frame::And(left) => {
            let (left, right) = boxed(alloc, left, operand)?;
            Ok(Closed::Goes(Filter::And(left, right), tokens))
        }
        Frame::Or(left) => close_or(alloc, stack, left, operand, tokens),
        Frame::Open => close_bracket(stack, operand, tokens),
    }
}

fn close_or<'a>(
    alloc: Global,
    stack: &mut Stack<Frame>,
    left: Filter,
    operand: Filter,
    tokens: &'a [Token],
) -> Result<Closed<'a>, Refusal>
    ensures exact { Gives (read.step_of stack.new) result (read.close read.Disjunction (read.marks stack.old) tokens.now) }
    ensures spelled { IfOk result (λ closed. (all : List Token) → read.HasOperand all (Or left ∷ stack.old) operand tokens.now → read.ClosesTo all stack.new closed) }
    ensures keeps { IfOk result (λ closed. read.KeepsFrames stack.old stack.new closed) }
{
    match next_of(tokens) {
        Next::And(rest) => {
            stack.push_two(Frame::Or(left), Frame::And(operand))?;
            Ok(Closed::Wants(rest))
        }
        _ => {
            let (left, right) = boxed(alloc, left, operand)?;
            Ok(Closed::Goes(Filter::Or(left, right), tokens))
        }
    }
}

fn close_bracket<'a>(
    stack: &mut Stack<Frame>,
    operand: Filter,
    tokens: &'a [Token],
) -> Result<Closed<'a>, Refusal>
    ensures exact { Gives (read.step_of stack.new) result (read.close read.Bracket (read.marks stack.old) tokens.now) }
    ensures spelled { IfOk result (λ closed. (all : List Token) → read.HasOperand all (Open ∷ stack.old) operand tokens.now → read.ClosesTo all stack.new closed) }
    ensures keeps { IfOk result (λ closed. read.KeepsFrames stack.old stack.new closed) }
{
    match next_of(tokens) {
        Next::And(rest) => {
            stack.push_two(Frame::Open, Frame::And(operand))?;
            Ok(Closed::Wants(rest))
        }
        Next::Or(rest) => {
            stack.push_two(Frame::Open, Frame::Or(operand))?;
            Ok(Closed::Wants(rest))
        }
        Next::Close(rest) => Ok(Closed::Goes(operand, rest)),
        Next::Other => {
            drop(operand);
            Err(unexpected(tokens))
        }
    }
}
