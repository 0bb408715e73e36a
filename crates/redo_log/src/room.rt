//! The memory of a log: how much may be appended before any is taken.
//! Only `log` calls these; nothing here meets the disk.

ghost use Rattle.std.specs.Prelude.{◌≡◌, ◌+◌, ◌-◌, ◌*◌, ◌^◌, ◌<◌, ◌≤◌, max, min, drop, vec_len, vec_capacity, IsOk, OnOk, IfOk};
ghost use Rattle.redo_log.specs.View.{numbers_left};

use std::alloc::AllocError;
use store_api::NoMemory;

/// No block number reaches this one, so that no place in the area passes its type's end.
const LAST_BLOCK: u64 = 1 << 54;

/// For how many bytes of blocks there are numbers.
pub fn numbers_from(block: u64, next: u64) -> u64
    requires { block ≤ 2 ^ 54 }
    ensures { result ≡ numbers_left block next }
{
    512 * (LAST_BLOCK - block).min(u64::MAX - next)
}

fn grow(bytes: &mut Vec<u8>, capacity: usize) -> Result<(), AllocError>
    ensures ok { OnOk result (capacity ≤ vec_capacity bytes.new) }
    ensures items { bytes.new.items ≡ bytes.old.items }
    ensures len { vec_len bytes.new ≡ vec_len bytes.old }
    ensures grows { vec_capacity bytes.old ≤ vec_capacity bytes.new }
{
    bytes.reserve(capacity.saturating_sub(bytes.len()))
}

/// Makes room for so much in both, unless it is there, and answers how much there is.
pub fn widened(
    pending: &mut Vec<u8>,
    work: &mut Vec<u8>,
    have: usize,
    want: usize,
) -> Result<usize, NoMemory>
    requires fits { have < 2 ^ 32 }
    requires pending_holds { have ≤ vec_capacity pending.old }
    requires work_holds { have ≤ vec_capacity work.old }
    ensures room { IfOk result (λ room. room ≡ max have want) }
    ensures fits { IfOk result (λ room. room < 2 ^ 32) }
    ensures pending_holds { IfOk result (λ room. room ≤ vec_capacity pending.new) }
    ensures work_holds { IfOk result (λ room. room ≤ vec_capacity work.new) }
    ensures pending { pending.new.items ≡ pending.old.items }
    ensures pending_len { vec_len pending.new ≡ vec_len pending.old }
    ensures pending_grows { vec_capacity pending.old ≤ vec_capacity pending.new }
    ensures work { work.new.items ≡ work.old.items }
    ensures work_grows { vec_capacity work.old ≤ vec_capacity work.new }
    ensures enough { want ≤ have → IsOk result }
{
    if want <= have {
        return Ok(have);
    }
    if want > u32::MAX as usize {
        return Err(NoMemory);
    }
    grow(pending, want)?;
    grow(work, want)?;
    Ok(want)
}

/// Takes the first bytes away.
pub fn drop_front(bytes: &mut Vec<u8>, count: usize)
    requires { count ≤ vec_len bytes.old }
    ensures items { bytes.new.items ≡ drop count bytes.old.items }
    ensures len { vec_len bytes.new + count ≡ vec_len bytes.old }
    ensures capacity { vec_capacity bytes.new ≡ vec_capacity bytes.old }
{
    let rest = bytes.len() - count;
    bytes.copy_within(count.., 0);
    bytes.truncate(rest);
}
