//! The parts of changes of rows, and of their taking back.
//! `steps` alone calls these, with the world and the session's desk in its hands.

ghost use Rattle.std.specs.Prelude.{◌≡◌, ◌≢◌, ℕ, ◌-◌, ◌<◌, Option, false, [], length, IsTrue, ◌↔◌, IfSome, IfNone};
ghost use Rattle.store_api.specs.declared.stepped.Stepped.TheVariants.{Hindered};
ghost use Rattle.row_versions.specs.Chains.{Chains};
ghost use Rattle.law_stored_rows.specs.Tables.{Said};
ghost use Rattle.world.specs.State.{Session, Work, IsSession, HasWork, standing_of};
ghost use Rattle.world.specs.Undoing.{IsCutBack};
ghost use Rattle.law_past_agreement.specs.Order.{IsOfRow};
ghost use Rattle.row_changes.specs.Edits.{change_of};
ghost use Rattle.row_changes.specs.Rows.{IsChangingRow};
ghost use Rattle.inno_model.specs.Past.{own};
ghost use Rattle.desks.specs.Desks.{doing_at};
ghost use Rattle.desks.specs.Shown.{lists_of};
ghost use Rattle.law_held_steps.specs.Making.{given_up};
ghost use Rattle.law_held_steps.specs.Hindering.{IsForWant, hindrance_of};
ghost use Rattle.law_held_steps.specs.Making.{TakesBackIn};
ghost use Rattle.row_changes.specs.Reached as reached;
ghost use Rattle.world_lists.specs.Parts.{StepsChange, HasChange, MayGoOn, StepsAtDesk, doing_now, DropsNewest, is_told, answer_for};
ghost use Rattle.world_lists.specs.Between.{IsKept, store_of};

use crate::lists::is_short;
use desks::{Desk, Doing, give_doing};
use inno_db::Change;
use row_changes::{RowChange, RowEdit};
use shared_lists::{ChangePart, Changed, Hindrance, Undone};
use std::alloc::Global;
use store_api::{Move, Stepped};
use undo_apply::RecordRoom;
use world::EngineWorld;

/// Whether the session takes a change back.
pub fn is_undoing(desks: &[Desk], session: u32) -> bool
    requires { session < length desks.now }
    ensures { IsTrue result ↔ (doing_at session desks.now ≡ Doing.Undoing) }
{
    matches!(&desks[session as usize].doing, Doing::Undoing)
}

/// One step of the change that a session has under way, made where it lies.
pub fn change_at_desk<W: EngineWorld>(
    alloc: Global,
    world: &mut W,
    desks: &mut Vec<Desk>,
    session: u32,
) -> Changed
    requires joined { session < length desks.old.items }
    requires changing { HasChange session (W.state world.old) desks.old.items }
    ensures { StepsAtDesk session (W.state world.old) (W.state world.new) desks.old.items desks.new.items result }
{
    let desk = &mut desks[session as usize];
    let Doing::Changing(change) = &mut desk.doing else {
        unreachable!()
    };
    let is_told = is_told(change);
    let changed = step_change(alloc, world, session, change);
    match left_after(&changed, is_told) {
        Some(doing) => drop(std::mem::replace(&mut desk.doing, doing)),
        None => return changed,
    }
    changed
}

/// What a desk has instead of a change that is over or given up.
fn left_after(changed: &Changed, was_told: bool) -> Option<Doing>
    ensures over { (change next : RowChange) → was_told ≡ is_told change → IfSome result (λ doing. doing ≡ doing_now change next changed.now) }
    ensures stays { (change next : RowChange) → IfNone result (doing_now change next changed.now ≡ Doing.Changing next) }
{
    match changed {
        Stepped::Went => None,
        Stepped::Done(part) => match part {
            ChangePart::Record => None,
            ChangePart::Keys => Some(Doing::Nothing),
        },
        Stepped::Hindered(_) => Some(given_up(was_told)),
    }
}

/// One step of a change. It is given up for want of memory, of pages or of levels, and nothing else hinders it.
fn step_change<W: EngineWorld>(
    alloc: Global,
    world: &mut W,
    session: u32,
    change: &mut RowChange,
) -> Changed
    requires { MayGoOn session (W.state world.old) change.old }
    ensures { StepsChange session change.old (W.state world.old) (W.state world.new) (doing_now change.old change.new result) result }
{
    let is_told = is_told(change);
    match change.advance(alloc, world, session) {
        Stepped::Went => answer_for(is_told, change),
        Stepped::Done(()) => Stepped::Done(ChangePart::Keys),
        Stepped::Hindered(why) => Stepped::Hindered(hindrance_of(why)),
    }
}

/// What a change is given up for whose call was hindered so.
fn hindrance_of(why: Move) -> Hindrance
    requires { IsForWant why }
    ensures { result ≡ hindrance_of why }
{
    match why {
        Move::NoMemory => Hindrance::NoMemory,
        Move::Full { need, free } => Hindrance::Full { need, free },
        Move::TooDeep => Hindrance::TooDeep,
        _ => unreachable!(),
    }
}

/// Gives a change up, as one is that finds no memory.
pub fn drop_change<W: EngineWorld>(world: &W, session: u32, change: RowChange) -> Doing
    requires changing { (chains : Chains) × (beside : Said) × IsChangingRow session chains beside (W.state world.now) change }
    requires untold { is_told change ≡ false }
    ensures { StepsChange session change (W.state world.now) (W.state world.now) result (Hindered Hindrance.NoMemory) }
{
    drop(change);
    Doing::Nothing
}

/// Whether the history tells the change.
fn is_told(change: &RowChange) -> bool
    ensures { result ≡ is_told change.now }
{
    matches!(change, RowChange::Keys(_))
}

/// How far a change came that went on: the history tells it from its keys on.
fn answer_for(was_told: bool, next: &RowChange) -> Changed
    ensures { (change : RowChange) → was_told ≡ is_told change → result ≡ answer_for change (reached.Went next.now) }
{
    if was_told || !is_told(next) {
        Stepped::Went
    } else {
        Stepped::Done(ChangePart::Record)
    }
}

/// A change that is given up is to be taken back, where the history tells it.
fn given_up(was_told: bool) -> Doing
    ensures { (change : RowChange) → was_told ≡ is_told change → result ≡ given_up change }
{
    if was_told {
        Doing::Lagging
    } else {
        Doing::Nothing
    }
}

/// The row that a change puts or removes.
pub fn edit_of(change: Change) -> Option<(u8, RowEdit)>
    ensures some { IfSome result (λ found. change_of found.0 found.1 ≡ change) }
    ensures none { IfNone result (IsOfRow change → ⊥) }
{
    match change {
        Change::Put { table, row } => Some((table, RowEdit::Put(row))),
        Change::Remove { table, key } => Some((table, RowEdit::Remove(key))),
        Change::Create { .. } => None,
    }
}

/// Drops the session's newest undo record, and tells the history that its change is taken back.
fn drop_newest<W: EngineWorld>(world: &mut W, session: u32)
    requires few { session < 68 }
    requires joined { session < length (W.state world.old).sessions }
    requires logged { (now : Session) × (work : Work) × HasWork session now work (W.state world.old) × (work.log ≢ []) }
    requires counts { (now : Session) → IsSession session now (W.state world.old) → 0 < (standing_of now).own }
    requires still { (cut : _) → IsCutBack session (W.state world.old) cut → (now : Session) × (work : Work) × HasWork session now work cut × (0 < work.own) }
    ensures { DropsNewest session (W.state world.old) (W.state world.new) }
{
    let keep = world.session(session).own - 1;
    match world.cut_back(session, session as u8) {
        Move::Done => world.add_undone(session, keep),
        _ => unreachable!(),
    }
}

/// Makes one step by which the session's newest change is taken back. After the last one the history tells it, and one older
/// version more was dropped. Nothing hinders it: the session's buffers have room, and nobody is awaited.
pub fn take_newest_back<W: EngineWorld>(
    world: &mut W,
    session: u32,
    desks: &mut Vec<Desk>,
    cuts: &mut u64,
    record: &mut RecordRoom,
) -> Undone
    requires kept { (writer : Option ℕ) × IsKept (store_of (W.state world.old) writer desks.old.items cuts.old) }
    requires joined { session < length desks.old.items }
    requires busy { doing_at session desks.old.items ≡ Doing.Undoing }
    ensures kept { (writer : Option ℕ) → IsKept (store_of (W.state world.old) writer desks.old.items cuts.old)
        → IsKept (store_of (W.state world.new) writer desks.new.items cuts.new) }
    ensures takes { (writer : Option ℕ) → IsKept (store_of (W.state world.old) writer desks.old.items cuts.old)
        → TakesBackIn session (length (own session (W.state world.old).past) - 1) (lists_of (store_of (W.state world.old) writer desks.old.items cuts.old))
        (lists_of (store_of (W.state world.new) writer desks.new.items cuts.new)) result }
{
    let desk = &mut desks[session as usize];
    match record.put_back(world, session, &desk.undo, &mut desk.room) {
        Move::Done => {
            drop_newest(world, session);
            give_doing(desks, session, Doing::Nothing);
            is_short(world);
            *cuts += 1;
            Stepped::Done(())
        }
        Move::Step => Stepped::Went,
        _ => unreachable!(),
    }
}
