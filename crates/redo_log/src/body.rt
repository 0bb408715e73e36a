//! The records of a group as the log takes them: as they are, or spelled already; and what is spelled where a
//! group goes on in a block. Only the log asks here.

ghost use Rattle.std.specs.Prelude.{◌≡◌, ◌+◌, ◌^◌, ◌<◌, ◌≤◌, ◌++◌, ℕ, List, length, vec_len, vec_capacity, OnOk, OnErr, IfOk};
ghost use Rattle.log_format.specs.declared.block.TheConstants.{BLOCK};
ghost use Rattle.log_format.specs.declared.group.Record.{Record as RecordValue};
ghost use Rattle.log_format.specs.Block.{payload_of};
ghost use Rattle.log_format.specs.Group.{group_bytes, IsGroup};
ghost use Rattle.redo_log.specs.Bodies.{IsOf};

use log_format::{Records, put_group_as, put_head_as, put_payload};
use std::alloc::AllocError;

/// What a group says.
#[derive(Clone, Copy)]
pub enum Body<'a> {
    Records(&'a Records),
    /// So many records, one behind the other.
    Spelled(u16, &'a [u8]),
}

/// Spells a group at the end, and answers the bytes of it that stand elsewhere: records that are spelled already stay
/// where they are, and come behind.
pub fn put_body_as<'a>(lsn: u64, body: Body<'a>, out: &mut Vec<u8>) -> Result<&'a [u8], AllocError>
    requires { (rs : List RecordValue) × IsOf rs body }
    ensures ok { IfOk result (λ rest. (rs : List RecordValue) → IsOf rs body.entry
        → out.new.items ++ rest.now ≡ out.old.items ++ group_bytes (record { lsn = lsn; records = rs })) }
    ensures group { OnOk result ((rs : List RecordValue) → IsOf rs body.entry → IsGroup (record { lsn = lsn; records = rs })) }
    ensures grows { vec_capacity out.old ≤ vec_capacity out.new }
    ensures full { (room : ℕ) (rs : List RecordValue) → IsOf rs body.entry → room < 2 ^ 32 → vec_len out.old + room ≤ vec_capacity out.old →
        OnErr result (room < length (group_bytes (record { lsn = lsn; records = rs }))) }
{
    match body {
        Body::Records(records) => {
            put_group_as(lsn, records, out)?;
            Ok(&[])
        }
        Body::Spelled(count, records) => {
            put_head_as(lsn, count, records, out)?;
            Ok(records)
        }
    }
}

/// Spells what the blocks of an append hold, in place of what stood there: the payload of the last block, if the group goes on
/// in it, and behind it the group. Answers the bytes of the group that stand elsewhere, as `put_body_as` does.
pub fn put_behind<'a>(
    last: &[u8],
    lsn: u64,
    body: Body<'a>,
    work: &mut Vec<u8>,
) -> Result<&'a [u8], AllocError>
    requires body { (rs : List RecordValue) × IsOf rs body }
    requires whole { 0 < length last.now → length last.now ≡ BLOCK }
    requires room { length last.now ≤ vec_capacity work.old }
    ensures ok { IfOk result (λ rest. (rs : List RecordValue) → IsOf rs body.entry
        → work.new.items ++ rest.now ≡ payload_of last.now ++ group_bytes (record { lsn = lsn; records = rs })) }
    ensures group { OnOk result ((rs : List RecordValue) → IsOf rs body.entry → IsGroup (record { lsn = lsn; records = rs })) }
    ensures grows { vec_capacity work.old ≤ vec_capacity work.new }
    ensures full { (room : ℕ) (rs : List RecordValue) → IsOf rs body.entry → room < 2 ^ 32 → length last.now + room ≤ vec_capacity work.old →
        OnErr result (room < length (group_bytes (record { lsn = lsn; records = rs }))) }
{
    work.clear();
    put_payload(last, work);
    put_body_as(lsn, body, work)
}
