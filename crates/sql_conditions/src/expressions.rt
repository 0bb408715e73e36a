//! The right side of an assignment, read with a stack of what waits for an operand.
//! An operand is let go by a call alone: each branch that leaves one behind makes the check much longer.

ghost use Rattle.std.specs.Prelude.{◌≡◌, [], ◌∷◌, List, IfOk};
ghost use Rattle.sql_grammar.specs.declared.token.Token.{Token};
ghost use Rattle.sql_grammar.specs.Grammar.{Expression, Loose};
ghost use Rattle.sql_conditions.specs.Parts.{Gives};
ghost use Rattle.sql_conditions.specs.Expressions as read;
ghost use Rattle.sql_conditions.specs.declared.expressions.Frame.TheVariants as frames;

use crate::atoms::operand;
use crate::boxes::boxed;
use crate::stack::Stack;
use crate::{Refusal, unexpected};
use inno_types::{Expr, Operand};
use sql_grammar::Token;
use std::alloc::Global;

/// What waits for an operand: a minus, an open bracket, or what stands left of an operator.
#[derive(Drop)]
pub enum Frame {
    Negate,
    Open,
    Times(Expr),
    Plus(Expr),
    Minus(Expr),
}

/// What stands behind an operand.
#[derive(Clone, Copy)]
pub enum Next<'a> {
    Times(&'a [Token]),
    Plus(&'a [Token]),
    Minus(&'a [Token]),
    Close(&'a [Token]),
    Other,
}

/// What an operand begins with.
#[derive(Clone, Copy)]
pub enum Opening<'a> {
    Minus(&'a [Token]),
    Bracket(&'a [Token]),
    Value,
}

/// An operand with what waited for it: an operand again, or another one is wanted first.
#[derive(Drop)]
pub enum Closed<'a> {
    Goes(Expr, &'a [Token]),
    Wants(&'a [Token]),
}

/// A whole expression, or another operand is wanted.
#[derive(Drop)]
pub enum After<'a> {
    Whole(Expr, &'a [Token]),
    Wants(&'a [Token]),
}

#[tactic(auto, unfolding(crate::specs::Expressions::follow_of))]
fn next_of(tokens: &[Token]) -> Next<'_>
    ensures { read.follow_by result ≡ read.follow_of tokens.now }
{
    match tokens {
        [Token::Star, rest @ ..] => Next::Times(rest),
        [Token::Plus, rest @ ..] => Next::Plus(rest),
        [Token::Minus, rest @ ..] => Next::Minus(rest),
        [Token::Close, rest @ ..] => Next::Close(rest),
        _ => Next::Other,
    }
}

/// A minus before a number is part of the number.
#[tactic(auto, unfolding(crate::specs::Expressions::opening_of))]
fn opening_of(tokens: &[Token]) -> Opening<'_>
    ensures { read.opening_by result ≡ read.opening_of tokens.now }
{
    match tokens {
        [Token::Minus, Token::Number(_), ..] => Opening::Value,
        [Token::Minus, rest @ ..] => Opening::Minus(rest),
        [Token::Open, rest @ ..] => Opening::Bracket(rest),
        _ => Opening::Value,
    }
}

/// An expression at the front of the tokens, and what follows it.
pub fn expression(alloc: Global, tokens: &[Token]) -> Result<(Expr, &[Token]), Refusal>
    ensures exact { Gives (λ x. x.1.now) result (read.after_expression tokens.now) }
    ensures spelled { IfOk result (λ x. Expression Loose tokens.now x.0 x.1.now) }
{
    let mut stack = Stack::new(alloc);
    let mut rest = tokens;
    let count = tokens.len();
    for _ in 0..count {
        match step(alloc, &mut stack, rest)? {
            After::Whole(whole, rest) => return Ok((whole, rest)),
            After::Wants(more) => rest = more,
        }
    }
    Err(unexpected(rest))
}

/// One step where an operand is wanted.
fn step<'a>(
    alloc: Global,
    stack: &mut Stack<Frame>,
    tokens: &'a [Token],
) -> Result<After<'a>, Refusal>
    ensures exact { Gives (read.stage_of stack.new) result (read.operand_step (read.marks stack.old) tokens.now) }
    ensures spelled { IfOk result (λ after. (all : List Token) → read.Stands all stack.old tokens.now → read.StandsAfter all stack.new after) }
{
    match opening_of(tokens) {
        Opening::Minus(rest) => {
            stack.push(Frame::Negate)?;
            Ok(After::Wants(rest))
        }
        Opening::Bracket(rest) => {
            stack.push(Frame::Open)?;
            Ok(After::Wants(rest))
        }
        Opening::Value => value_step(alloc, stack, tokens),
    }
}

/// A literal or a column, with all that waited for it.
fn value_step<'a>(
    alloc: Global,
    stack: &mut Stack<Frame>,
    tokens: &'a [Token],
) -> Result<After<'a>, Refusal>
    ensures exact { Gives (read.stage_of stack.new) result (read.value_step (read.marks stack.old) tokens.now) }
    ensures spelled { IfOk result (λ after. (all : List Token) → read.Stands all stack.old tokens.now → read.StandsAfter all stack.new after) }
{
    let (operand, rest) = value(tokens)?;
    settle(alloc, stack, operand, rest)
}

#[tactic(auto, using(crate::proofs::InParts::in_parts))]
fn value(tokens: &[Token]) -> Result<(Expr, &[Token]), Refusal>
    ensures { Gives (λ x. (x.0, x.1.now)) result (read.value_at tokens.now) }
{
    let (operand, rest) = operand(tokens)?;
    Ok((expr_of(operand), rest))
}

fn expr_of(operand: Operand) -> Expr
    ensures { result ≡ read.expr_of operand }
{
    match operand {
        Operand::Column(name) => Expr::Column(name),
        Operand::Literal(value) => Expr::Literal(value),
    }
}

/// Joins an operand to all that waited for it, as far as what follows lets it.
fn settle<'a>(
    alloc: Global,
    stack: &mut Stack<Frame>,
    operand: Expr,
    tokens: &'a [Token],
) -> Result<After<'a>, Refusal>
    ensures exact { Gives (read.stage_of stack.new) result (read.settle (read.marks stack.old) tokens.now) }
    ensures spelled { IfOk result (λ after. (all : List Token) → read.HasOperand all stack.old operand tokens.now → read.StandsAfter all stack.new after) }
{
    let mut joined = operand;
    let mut rest = tokens;
    'frames: while let Some(frame) = stack.pop() {
        match close(alloc, stack, frame, joined, rest)? {
            Closed::Goes(more, after) => {
                joined = more;
                rest = after;
            }
            Closed::Wants(after) => return Ok(After::Wants(after)),
        }
    }
    finish(stack, joined, rest)
}

/// With nothing on the stack: whole, or the left side of an operator.
fn finish<'a>(
    stack: &mut Stack<Frame>,
    operand: Expr,
    tokens: &'a [Token],
) -> Result<After<'a>, Refusal>
    requires { stack.old ≡ [] }
    ensures exact { Gives (read.stage_of stack.new) result (read.settle [] tokens.now) }
    ensures spelled { IfOk result (λ after. (all : List Token) → read.HasOperand all [] operand tokens.now → read.StandsAfter all stack.new after) }
{
    match next_of(tokens) {
        Next::Times(rest) => {
            stack.push(Frame::Times(operand))?;
            Ok(After::Wants(rest))
        }
        Next::Plus(rest) => {
            stack.push(Frame::Plus(operand))?;
            Ok(After::Wants(rest))
        }
        Next::Minus(rest) => {
            stack.push(Frame::Minus(operand))?;
            Ok(After::Wants(rest))
        }
        _ => Ok(After::Whole(operand, tokens)),
    }
}

/// Joins an operand to what waited for it, taken off the stack.
fn close<'a>(
    alloc: Global,
    stack: &mut Stack<Frame>,
    frame: Frame,
    operand: Expr,
    tokens: &'a [Token],
) -> Result<Closed<'a>, Refusal>
    ensures exact { Gives (read.step_of stack.new) result (read.close (read.mark_of frame) (read.marks stack.old) tokens.now) }
    ensures spelled { IfOk result (λ closed. (all : List Token) → read.HasOperand all (frame ∷ stack.old) operand tokens.now → read.ClosesTo all stack.new closed) }
    ensures keeps { IfOk result (λ closed. read.KeepsFrames stack.old stack.new closed) }
{
    match frame {
        Frame::Negate => Ok(Closed::Goes(Expr::Negate(Box::new(alloc, operand)?), tokens)),
        Frame::Times(left) => {
            let (left, right) = boxed(alloc, left, operand)?;
            Ok(Closed::Goes(Expr::Multiply(left, right), tokens))
        }
        Frame::Plus(left) => close_plus(alloc, stack, left, operand, tokens),
        Frame::Minus(left) => close_minus(alloc, stack, left, operand, tokens),
        Frame::Open => close_bracket(stack, operand, tokens),
    }
}

fn close_plus<'a>(
    alloc: Global,
    stack: &mut Stack<Frame>,
    left: Expr,
    operand: Expr,
    tokens: &'a [Token],
) -> Result<Closed<'a>, Refusal>
    ensures exact { Gives (read.step_of stack.new) result (read.close read.Sum (read.marks stack.old) tokens.now) }
    ensures spelled { IfOk result (λ closed. (all : List Token) → read.HasOperand all (frames.Plus left ∷ stack.old) operand tokens.now → read.ClosesTo all stack.new closed) }
    ensures keeps { IfOk result (λ closed. read.KeepsFrames stack.old stack.new closed) }
{
    match next_of(tokens) {
        Next::Times(rest) => {
            stack.push_two(Frame::Plus(left), Frame::Times(operand))?;
            Ok(Closed::Wants(rest))
        }
        _ => {
            let (left, right) = boxed(alloc, left, operand)?;
            Ok(Closed::Goes(Expr::Add(left, right), tokens))
        }
    }
}

fn close_minus<'a>(
    alloc: Global,
    stack: &mut Stack<Frame>,
    left: Expr,
    operand: Expr,
    tokens: &'a [Token],
) -> Result<Closed<'a>, Refusal>
    ensures exact { Gives (read.step_of stack.new) result (read.close read.Difference (read.marks stack.old) tokens.now) }
    ensures spelled { IfOk result (λ closed. (all : List Token) → read.HasOperand all (frames.Minus left ∷ stack.old) operand tokens.now → read.ClosesTo all stack.new closed) }
    ensures keeps { IfOk result (λ closed. read.KeepsFrames stack.old stack.new closed) }
{
    match next_of(tokens) {
        Next::Times(rest) => {
            stack.push_two(Frame::Minus(left), Frame::Times(operand))?;
            Ok(Closed::Wants(rest))
        }
        _ => {
            let (left, right) = boxed(alloc, left, operand)?;
            Ok(Closed::Goes(Expr::Subtract(left, right), tokens))
        }
    }
}

fn close_bracket<'a>(
    stack: &mut Stack<Frame>,
    operand: Expr,
    tokens: &'a [Token],
) -> Result<Closed<'a>, Refusal>
    ensures exact { Gives (read.step_of stack.new) result (read.close read.Bracket (read.marks stack.old) tokens.now) }
    ensures spelled { IfOk result (λ closed. (all : List Token) → read.HasOperand all (frames.Open ∷ stack.old) operand tokens.now → read.ClosesTo all stack.new closed) }
    ensures keeps { IfOk result (λ closed. read.KeepsFrames stack.old stack.new closed) }
{
    match next_of(tokens) {
        Next::Times(rest) => {
            stack.push_two(Frame::Open, Frame::Times(operand))?;
            Ok(Closed::Wants(rest))
        }
        Next::Plus(rest) => {
            stack.push_two(Frame::Open, Frame::Plus(operand))?;
            Ok(Closed::Wants(rest))
        }
        Next::Minus(rest) => {
            stack.push_two(Frame::Open, Frame::Minus(operand))?;
            Ok(Closed::Wants(rest))
        }
        Next::Close(rest) => Ok(Closed::Goes(operand, rest)),
        Next::Other => {
            drop(operand);
            Err(unexpected(tokens))
        }
    }
}
