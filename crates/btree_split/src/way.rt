//! The way of a key from the root to its leaf, and the lowest page on it that has room. Each page that was read is
//! given up. `btree_grow` alone asks, at the beginning of an insertion.

ghost use Rattle.std.specs.Prelude.{◌≡◌, ℕ, ◌+◌, ◌<◌, ◌≤◌, List, [], ◌∷◌, ◌++◌, IsTrue, IfOk, IfErr, None, MatchBool};
ghost use Rattle.mtr.specs.Calls.{GivesUp};
ghost use Rattle.btree.specs.Reads.{IsIdle, IsHindered};
ghost use Rattle.btree.specs.Sound.{IsSoundTree};
ghost use Rattle.btree_change.specs.Edits.{HasRoom};
ghost use Rattle.btree_split.specs.Ways.{EndsFull, IsLowestRoom};

use btree::{Down, Tree, step_down};
use btree_change::has_room;
use mtr::Mtr;
use page_format::layout::MOST_LEVELS;
use store_api::{PageRule, Visit};

/// The lowest page of a way that has room, if any has, and how many pages below it are full.
#[derive(Clone, Copy)]
pub struct LowestRoom {
    pub above: Option<u32>,
    pub full: u8,
}

/// Whether a page has room.
fn room_on<M: Mtr>(m: &mut M, page: u32) -> Result<bool, Visit>
    requires { IsIdle (M.state m.old) }
    ensures room { IfOk result (λ room. IsTrue (M.state m.new).told
        → MatchBool room (HasRoom ((M.state m.old).standing page)) (HasRoom ((M.state m.old).standing page) → ⊥)) }
    ensures reads { GivesUp (M.state m.old) (M.state m.new) }
    ensures reason { IfErr result (IsHindered (M.state m.old) (M.state m.new)) }
{
    let bytes = m.bytes(page)?;
    let room = has_room(bytes);
    m.give_up();
    Ok(room)
}

/// The same of a way that is one page longer.
fn further(so_far: LowestRoom, page: u32, room: bool) -> LowestRoom
    requires { so_far.full < 8 }
    ensures few { result.full ≤ so_far.full + 1 }
    ensures some { result.above ≡ None → 0 < result.full }
    ensures ends { (pages : ℕ → List ℕ) (way : List ℕ) → MatchBool room (HasRoom (pages page)) (HasRoom (pages page) → ⊥)
        → EndsFull pages way so_far.above so_far.full → EndsFull pages (way ++ page ∷ []) result.above result.full }
{
    if room {
        LowestRoom {
            above: Some(page),
            full: 0,
        }
    } else {
        LowestRoom {
            above: so_far.above,
            full: so_far.full + 1,
        }
    }
}

/// The lowest page on the way of a key that has room, if any has, and how many pages below it are full.
pub fn lowest_room<M: Mtr>(m: &mut M, tree: Tree, key: &[u8]) -> Result<LowestRoom, Visit>
    requires idle { IsIdle (M.state m.old) }
    requires tree { IsTrue (M.state m.old).told → IsSoundTree tree (M.state m.old).standing }
    ensures lowest { IfOk result (λ lowest. IsTrue (M.state m.new).told
        → IsLowestRoom tree (M.state m.old).standing key.now lowest.above lowest.full) }
    ensures few { IfOk result (λ lowest. lowest.full ≤ 8) }
    ensures some { IfOk result (λ lowest. lowest.above ≡ None → 0 < lowest.full) }
    ensures reads { GivesUp (M.state m.old) (M.state m.new) }
    ensures reason { IfErr result (IsHindered (M.state m.old) (M.state m.new)) }
{
    let mut page = tree.root;
    let mut so_far = LowestRoom {
        above: None,
        full: 0,
    };
    for _ in 0..MOST_LEVELS {
        let room = room_on(m, page)?;
        let here = further(so_far, page, room);
        match step_down(m, tree, page, key)? {
            Down::Leaf => return Ok(here),
            Down::Child(child) => {
                page = child;
                so_far = here;
            }
        }
    }
    Err(Visit::Bad {
        page: tree.root,
        rule: PageRule::Child as u8,
    })
}
