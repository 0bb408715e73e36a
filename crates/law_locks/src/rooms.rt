//! The memory for cycles lasts: there are never more requests than it was taken for.
//! `lock_table` takes that memory when a request has to wait; no law here takes any.

ghost use Rattle.std.specs.Prelude.{◌≡◌, ℕ, ◌-◌, true, Option, List, [], length};
ghost use Rattle.inno_types.specs.declared.lock.Spot.{Spot};
ghost use Rattle.inno_types.specs.declared.lock.Lock.{Lock};
ghost use Rattle.lock_table.specs.declared.room.CycleRoom.{CycleRoom};
ghost use Rattle.lock_table.specs.Queue.{Lists, serve, without, without_lock, is_waiting};
ghost use Rattle.lock_table.specs.Records.{after_removal, after_end};
ghost use Rattle.lock_table.specs.Room.{HasRooms};
ghost use Rattle.law_locks.specs.Settling.{after_withdrawal};

/// A round uses up the room for one cycle, and one request goes: so there is room for the next round.
pub fn rooms_last_through_a_round()
    ensures { (victim : ℕ) (lists : Lists) (rooms : List CycleRoom) → is_waiting victim lists.waiting ≡ true
        → HasRooms (length lists.waiting - 1) rooms → HasRooms (length (after_withdrawal victim lists).waiting) rooms }
{}

/// No call but a request that waits needs more room.
pub fn rooms_last_through_other_calls()
    ensures withdrawn { (txn : ℕ) (granted waiting : List Lock) (rooms : List CycleRoom)
        → HasRooms (length waiting) rooms → HasRooms (length (serve granted [] (without txn waiting)).waiting) rooms }
    ensures ended { (txn : ℕ) (granted waiting : List Lock) (rooms : List CycleRoom)
        → HasRooms (length waiting) rooms → HasRooms (length (after_end txn granted waiting).waiting) rooms }
    ensures released { (gone : Lock) (granted waiting : List Lock) (rooms : List CycleRoom)
        → HasRooms (length waiting) rooms → HasRooms (length (serve (without_lock gone granted) [] waiting).waiting) rooms }
    ensures removed { (by : Option ℕ) (gone next : Spot) (granted waiting : List Lock) (rooms : List CycleRoom)
        → HasRooms (length waiting) rooms → HasRooms (length (after_removal by gone next granted waiting).waiting) rooms }
{}
