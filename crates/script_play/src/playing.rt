//! Plays a script on the calling thread: its items in order, and after each the steps of all sessions until no session can
//! go on. Time passes at the script's ticks, and at the end where all who are there wait.

ghost use Rattle.std.specs.Prelude.{◌≡◌, ◌≢◌, ◌+◌, ◌<◌, ◌≤◌, ◌↔◌, ◌++◌, [], ℕ, List, length, take, slice_index_or, min, max};
ghost use Rattle.std.specs.Prelude.{All, IsTrue, IfSome, IfOk, OnOk, OnErr, None, true};
ghost use Rattle.inno_model.specs.Past.{under_way};
ghost use Rattle.inno_model.specs.Text.{items as started_by};
ghost use Rattle.script.specs.declared.script.ScriptItem.{ScriptItem as ScriptItemValue};
ghost use Rattle.sql_history.specs.Serial.{IsSetUp};
ghost use Rattle.script_play.specs.Sessions.{IsJoined, IsIdle, IsNextToLeave, StartsNothing, AreNamed, HaveNames, FollowsScript};
ghost use Rattle.script_play.specs.Sessions.{Shown, HasPlayed, AllRest, IsOver, Plays, Settles, IsNew, PassesWaits, items_of, seconds_in};

use crate::sessions::Sessions;
use inno_types::Bytes;
use script::{Script, ScriptItem, Tick};
use std::alloc::Global;
use store_api::{LONGEST_WAIT, NoMemory, Progress};

/// Joins the sessions of a script, plays it to its end, and lets all sessions leave.
pub fn play<E: Sessions>(alloc: Global, engine: &mut E, script: &Script) -> Result<(), NoMemory>
    requires new { IsNew (E.shown engine.old) }
    requires named { HaveNames script.now }
    ensures named { AreNamed script.now (E.shown engine.new).names }
    ensures follows { FollowsScript script.now.items (E.shown engine.new).past }
    ensures played { OnOk result (HasPlayed script.now (E.shown engine.new).names (E.shown engine.new).past) }
    ensures rests { OnOk result (AllRest (E.shown engine.new).past) }
    ensures set_up { IsSetUp (E.shown engine.new).past }
    // What has passed is the script's time, and at the end the longest wait, as often as all who were there waited.
    ensures moment { OnOk result (PassesWaits (seconds_in script.now.ticks) (E.shown engine.new).moment) }
{
    if script.names.is_empty() || script.names.len() > u32::MAX as usize {
        return Err(NoMemory);
    }
    join_all(engine, script.names.as_slice())?;
    let mut places = Vec::new(alloc);
    places.resize(script.names.len(), 0)?;
    play_items(
        engine,
        script.items.as_slice(),
        script.ticks.as_slice(),
        &mut places,
    )
}

fn join_all<E: Sessions>(engine: &mut E, names: &[Bytes]) -> Result<(), NoMemory>
    requires new { IsNew (E.shown engine.old) }
    requires few { length names.now ≤ 4294967295 }
    ensures nothing { (s : ℕ) → started_by s (E.shown engine.new).past ≡ [] }
    ensures named { (left : List (List ℕ)) × (names.now ≡ (E.shown engine.new).names ++ left) }
    ensures names { OnOk result ((E.shown engine.new).names ≡ names.now) }
    ensures moment { OnOk result ((E.shown engine.new).moment ≡ 0) }
{
    for name in names {
        let _ = engine.join(name)?;
    }
    Ok(())
}

/// Whether all places are the end.
fn all_at(end: usize, places: &[usize]) -> bool
    ensures { IsTrue result → All (λ place. place ≡ end) places.now }
{
    for place in places {
        if *place != end {
            return false;
        }
    }
    true
}

/// Whether all sessions have left, from one on.
fn all_left<E: Sessions>(engine: &E, first: u32, count: u32) -> bool
    requires { count ≡ length (E.shown engine.now).names }
    ensures left { IsTrue result → (s : ℕ) → first ≤ s → IsJoined s (E.shown engine.now) → (E.shown engine.now).has_left s ≡ true }
    ensures over { IsTrue result → (s : ℕ) → first ≤ s → IsJoined s (E.shown engine.now) → under_way s (E.shown engine.now).past ≡ None }
{
    for s in first..count {
        if !engine.has_left(s) {
            return false;
        }
    }
    true
}

/// Plays the setup part, then all items and ticks in order, and lets the sessions leave.
fn play_items<E: Sessions>(
    engine: &mut E,
    items: &[ScriptItem],
    ticks: &[Tick],
    places: &mut [usize],
) -> Result<(), NoMemory>
    requires starts { Plays [] places.old (E.shown engine.old) (E.shown engine.old) }
    requires first { (E.shown engine.old).moment ≡ 0 }
    requires nothing { (s : ℕ) → started_by s (E.shown engine.old).past ≡ [] }
    requires few { (0 < length places.old) × (length places.old ≤ 4294967295) }
    ensures plays { Plays items.now places.new (E.shown engine.old) (E.shown engine.new) }
    ensures set_up { IsSetUp (E.shown engine.new).past }
    ensures ends { OnOk result (All (λ place. place ≡ length items.now) places.new) }
    ensures rest { OnOk result ((s : ℕ) → IsJoined s (E.shown engine.new) → under_way s (E.shown engine.new).past ≡ None) }
    ensures moment { OnOk result (PassesWaits (seconds_in ticks.now) (E.shown engine.new).moment) }
{
    let mut known = setup_items(items);
    set_up(engine, &items[..known], places)?;
    for tick in ticks {
        known = play_until(engine, items, known, tick.items, places)?;
        pass_time(engine, tick.seconds as u64)?;
        let _ = settle(engine, &items[..known], places)?;
    }
    let _ = play_until(engine, items, known, items.len(), places)?;
    leave_all(engine, items, places)?;
    skip_all(items, places);
    if all_at(items.len(), places) && all_left(engine, 0, places.len() as u32) {
        Ok(())
    } else {
        Err(NoMemory)
    }
}

/// Plays the setup part, which has these items, to its end. No other session starts anything before.
fn set_up<E: Sessions>(
    engine: &mut E,
    items: &[ScriptItem],
    places: &mut [usize],
) -> Result<(), NoMemory>
    requires starts { Plays items.now places.old (E.shown engine.old) (E.shown engine.old) }
    requires nothing { (s : ℕ) → started_by s (E.shown engine.old).past ≡ [] }
    requires first { 0 < length places.old }
    ensures settles { Settles items.now places.new (E.shown engine.old) (E.shown engine.new) }
    ensures first { IsSetUp (E.shown engine.new).past }
    ensures over { OnOk result (IsOver (E.shown engine.new).past) }
{
    let _ = go_on(engine, items, places, 0)?;
    if engine.is_working(0) {
        return Err(NoMemory);
    }
    Ok(())
}

/// How many of the items are the setup part's: those before the first one of another session.
fn setup_items(items: &[ScriptItem]) -> usize
    ensures within { result ≤ length items.now }
    ensures setup { All (λ x. x.s ≡ 0) (take result items.now) }
    ensures others { result < length items.now → (d : ScriptItemValue) → (slice_index_or items.now result d).s ≡ 0 → ⊥ }
{
    for (place, item) in items.iter().enumerate() {
        if item.s != 0 {
            return place;
        }
    }
    items.len()
}

/// Plays the items one after another up to a place, at one moment, and says how many are known then.
fn play_until<E: Sessions>(
    engine: &mut E,
    items: &[ScriptItem],
    known: usize,
    until: usize,
    places: &mut [usize],
) -> Result<usize, NoMemory>
    requires starts { Plays (take known items.now) places.old (E.shown engine.old) (E.shown engine.old) }
    requires known { known ≤ length items.now }
    requires few { (0 < length places.old) × (length places.old ≤ 4294967295) }
    ensures settles { Settles items.now places.new (E.shown engine.old) (E.shown engine.new) }
    ensures known { IfOk result (λ n. Settles (take n items.now) places.new (E.shown engine.old) (E.shown engine.new)) }
    ensures until { IfOk result (λ n. n ≡ max known (min until (length items.now))) }
    ensures set_up { IsOver (E.shown engine.old).past → IsOver (E.shown engine.new).past }
{
    let until = until.min(items.len()).max(known);
    for next in known..until {
        let _ = settle(engine, &items[..next + 1], places)?;
    }
    Ok(until)
}

/// So many seconds pass.
fn pass_time<E: Sessions>(engine: &mut E, seconds: u64) -> Result<(), NoMemory>
    ensures ok { OnOk result (E.shown engine.new ≡ record (E.shown engine.old) { moment = (E.shown engine.old).moment + seconds }) }
    ensures err { OnErr result (E.shown engine.new ≡ E.shown engine.old) }
{
    let Some(moment) = engine.moment().checked_add(seconds) else {
        return Err(NoMemory);
    };
    engine.wait_until(moment);
    Ok(())
}

/// Lets the sessions leave one after another, the setup part last.
fn leave_all<E: Sessions>(
    engine: &mut E,
    items: &[ScriptItem],
    places: &mut [usize],
) -> Result<(), NoMemory>
    requires starts { Plays items.now places.old (E.shown engine.old) (E.shown engine.old) }
    requires few { (0 < length places.old) × (length places.old ≤ 4294967295) }
    ensures plays { Plays items.now places.new (E.shown engine.old) (E.shown engine.new) }
    ensures set_up { IsOver (E.shown engine.old).past → IsOver (E.shown engine.new).past }
    ensures moment { OnOk result (PassesWaits (E.shown engine.old).moment (E.shown engine.new).moment) }
{
    for _ in 0..u64::MAX {
        if !leave_next(engine, items, places)? {
            return Ok(());
        }
    }
    Err(NoMemory)
}

/// Lets the next session leave, and says whether one was there. Where all who are there wait, the longest wait passes instead.
/// Then each of them goes on, or else none ever would, so that the play ends.
fn leave_next<E: Sessions>(
    engine: &mut E,
    items: &[ScriptItem],
    places: &mut [usize],
) -> Result<bool, NoMemory>
    requires starts { Plays items.now places.old (E.shown engine.old) (E.shown engine.old) }
    requires few { (0 < length places.old) × (length places.old ≤ 4294967295) }
    ensures plays { Plays items.now places.new (E.shown engine.old) (E.shown engine.new) }
    ensures set_up { IsOver (E.shown engine.old).past → IsOver (E.shown engine.new).past }
    ensures moment { OnOk result (PassesWaits (E.shown engine.old).moment (E.shown engine.new).moment) }
{
    let count = places.len() as u32;
    if let Some(s) = next_to_leave(engine, count) {
        engine.leave(s);
        let _ = settle(engine, items, places)?;
        return Ok(true);
    }
    if all_left(engine, 0, count) {
        return Ok(false);
    }
    pass_time(engine, LONGEST_WAIT)?;
    if settle(engine, items, places)? {
        Ok(true)
    } else {
        Err(NoMemory)
    }
}

/// The lowest session that can leave. The setup part can once all others have left.
fn next_to_leave<E: Sessions>(engine: &E, count: u32) -> Option<u32>
    requires { count ≡ length (E.shown engine.now).names }
    ensures { IfSome result (λ s. IsNextToLeave s (E.shown engine.now)) }
{
    for s in 1..count {
        if is_idle(engine, s) {
            return Some(s);
        }
    }
    if count > 0 && all_left(engine, 1, count) && is_idle(engine, 0) {
        Some(0)
    } else {
        None
    }
}

/// Whether the session has nothing under way and hasn't left.
fn is_idle<E: Sessions>(engine: &E, s: u32) -> bool
    requires { IsJoined s (E.shown engine.now) }
    ensures { IsTrue result ↔ IsIdle s (E.shown engine.now) }
{
    !engine.is_working(s) && !engine.has_left(s)
}

/// Makes passes over the sessions until one changes nothing, and says whether anything has changed.
fn settle<E: Sessions>(
    engine: &mut E,
    items: &[ScriptItem],
    places: &mut [usize],
) -> Result<bool, NoMemory>
    requires starts { Plays items.now places.old (E.shown engine.old) (E.shown engine.old) }
    requires few { (0 < length places.old) × (length places.old ≤ 4294967295) }
    ensures settles { Settles items.now places.new (E.shown engine.old) (E.shown engine.new) }
    ensures set_up { IsOver (E.shown engine.old).past → IsOver (E.shown engine.new).past }
{
    for turn in 0..u64::MAX {
        if !pass(engine, items, places)? {
            return Ok(turn > 0);
        }
    }
    Err(NoMemory)
}

/// Lets each session go on as far as it can, by number, and says whether one did. The setup part starts nothing more.
fn pass<E: Sessions>(
    engine: &mut E,
    items: &[ScriptItem],
    places: &mut [usize],
) -> Result<bool, NoMemory>
    requires starts { Plays items.now places.old (E.shown engine.old) (E.shown engine.old) }
    requires few { (0 < length places.old) × (length places.old ≤ 4294967295) }
    ensures settles { Settles items.now places.new (E.shown engine.old) (E.shown engine.new) }
    ensures set_up { IsOver (E.shown engine.old).past → IsOver (E.shown engine.new).past }
{
    let mut changed = step_on(engine, 0)?;
    for s in 1..places.len() as u32 {
        if go_on(engine, items, places, s)? {
            changed = true;
        }
    }
    Ok(changed)
}

/// Lets a session go on until it has nothing to do or waits, and says whether it did anything.
fn go_on<E: Sessions>(
    engine: &mut E,
    items: &[ScriptItem],
    places: &mut [usize],
    s: u32,
) -> Result<bool, NoMemory>
    requires starts { Plays items.now places.old (E.shown engine.old) (E.shown engine.old) }
    requires joined { IsJoined s (E.shown engine.old) }
    ensures settles { Settles items.now places.new (E.shown engine.old) (E.shown engine.new) }
    ensures others { (t : ℕ) → t ≢ s → started_by t (E.shown engine.new).past ≡ started_by t (E.shown engine.old).past }
    ensures set_up { 0 < s → IsOver (E.shown engine.old).past → IsOver (E.shown engine.new).past }
{
    for turn in 0..u64::MAX {
        if !advance(engine, items, places, s)? {
            return Ok(turn > 0);
        }
    }
    Err(NoMemory)
}

/// Makes a step of a session, or starts its next item, and says whether it went on.
fn advance<E: Sessions>(
    engine: &mut E,
    items: &[ScriptItem],
    places: &mut [usize],
    s: u32,
) -> Result<bool, NoMemory>
    requires starts { Plays items.now places.old (E.shown engine.old) (E.shown engine.old) }
    requires joined { IsJoined s (E.shown engine.old) }
    ensures settles { Settles items.now places.new (E.shown engine.old) (E.shown engine.new) }
    ensures others { (t : ℕ) → t ≢ s → started_by t (E.shown engine.new).past ≡ started_by t (E.shown engine.old).past }
    ensures set_up { 0 < s → IsOver (E.shown engine.old).past → IsOver (E.shown engine.new).past }
{
    if engine.has_left(s) {
        return Ok(false);
    }
    if engine.is_working(s) {
        return step(engine, s);
    }
    let next = skip_others(items, places[s as usize], s);
    if next >= items.len() {
        places[s as usize] = next;
        return Ok(false);
    }
    engine.start(s, &items[next].item)?;
    places[s as usize] = next + 1;
    Ok(true)
}

/// Lets a session at work make its steps until it has ended or waits, and says whether it did anything.
fn step_on<E: Sessions>(engine: &mut E, s: u32) -> Result<bool, NoMemory>
    requires joined { IsJoined s (E.shown engine.old) }
    ensures { StartsNothing (E.shown engine.old) (E.shown engine.new) }
{
    for turn in 0..u64::MAX {
        if !step_at_work(engine, s)? {
            return Ok(turn > 0);
        }
    }
    Err(NoMemory)
}

/// Makes a step of a session where it is at work, and says whether it went on.
fn step_at_work<E: Sessions>(engine: &mut E, s: u32) -> Result<bool, NoMemory>
    requires joined { IsJoined s (E.shown engine.old) }
    ensures { StartsNothing (E.shown engine.old) (E.shown engine.new) }
{
    if engine.is_working(s) {
        step(engine, s)
    } else {
        Ok(false)
    }
}

/// Makes a step of a session at work, and says whether it went on. One that found no memory is followed by another one;
/// where that finds none either, there is no use in going on, since what is to be taken back would be tried for ever.
fn step<E: Sessions>(engine: &mut E, s: u32) -> Result<bool, NoMemory>
    requires joined { IsJoined s (E.shown engine.old) }
    requires working { (E.shown engine.old).is_working s ≡ true }
    ensures { StartsNothing (E.shown engine.old) (E.shown engine.new) }
{
    let progress = engine.step(s);
    let lacked = lacked_memory(&progress);
    let went = went_on(&progress);
    drop(progress);
    if !lacked || !engine.is_working(s) {
        return Ok(went);
    }
    let again = engine.step(s);
    let lacked = lacked_memory(&again);
    let went = went_on(&again);
    drop(again);
    if lacked { Err(NoMemory) } else { Ok(went) }
}

fn lacked_memory(progress: &Progress) -> bool {
    matches!(progress, Progress::NoMemory)
}

/// Whether a step changed anything: a session that waits stays where it is.
fn went_on(progress: &Progress) -> bool {
    !matches!(progress, Progress::Waiting { .. } | Progress::NotYet)
}

/// Moves each session's place on, past the items of others: a session that has no item left is at the end.
fn skip_all(items: &[ScriptItem], places: &mut [usize])
    requires starts { (old : Shown) × (now : Shown) × Plays items.now places.old old now }
    requires few { length places.old ≤ 4294967295 }
    ensures plays { (old now : Shown) → Plays items.now places.old old now → Plays items.now places.new old now }
{
    for s in 0..places.len() {
        skip_at(items, places, s as u32);
    }
}

fn skip_at(items: &[ScriptItem], places: &mut [usize], s: u32)
    requires starts { (old : Shown) × (now : Shown) × Plays items.now places.old old now }
    requires within { s < length places.old }
    ensures plays { (old now : Shown) → Plays items.now places.old old now → Plays items.now places.new old now }
    ensures count { length places.new ≡ length places.old }
{
    let at = s as usize;
    places[at] = skip_others(items, places[at], s);
}

/// The place of the session's first item from a place on, or the end.
fn skip_others(items: &[ScriptItem], place: usize, s: u32) -> usize
    requires { place ≤ length items.now }
    ensures within { result ≤ length items.now }
    ensures others { items_of s (take result items.now) ≡ items_of s (take place items.now) }
    ensures found { result < length items.now → (d : ScriptItemValue) → (slice_index_or items.now result d).s ≡ s }
{
    for next in place..items.len() {
        if items[next].s == s {
            return next;
        }
    }
    items.len()
}
