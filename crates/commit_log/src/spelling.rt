//! Spelling changes at the end of a vector. Memory may run out only past the vector's capacity, so that who has reserved
//! room is never refused.

ghost use Rattle.std.specs.Prelude.{◌≡◌, ◌+◌, ◌<◌, ◌≤◌, ◌++◌, length, vec_len, vec_capacity, OnOk, OnErr};
ghost use Rattle.log_format.specs.Group.{IsRecord, record_bytes};
ghost use Rattle.law_crashes.specs.Records.{record_of};
ghost use Rattle.commit_log.specs.Room.{HasRecord};

use crate::room::MOST_RECORD;
use inno_db::Change;
use log_format::{put_removal, put_row, put_table};
use std::alloc::AllocError;

/// Spells the record of a change at the end. After an `Err` anything may stand behind what stood there.
pub fn put_change(change: &Change, out: &mut Vec<u8>) -> Result<(), AllocError>
    requires { IsRecord (record_of change.now) }
    ensures ok { OnOk result (out.new.items ≡ out.old.items ++ record_bytes (record_of change.now)) }
    ensures len { OnOk result (vec_len out.new ≡ vec_len out.old + length (record_bytes (record_of change.now))) }
    ensures grows { vec_capacity out.old ≤ vec_capacity out.new }
    ensures full { OnErr result (vec_capacity out.old < vec_len out.old + length (record_bytes (record_of change.now))) }
{
    match change {
        Change::Create { schema } => put_table(schema, out),
        Change::Put { table, row } => put_row(*table, row.as_slice(), out),
        Change::Remove { table, key } => put_removal(*table, key, out),
    }
}

/// Spells the record of a change where there is room for any.
pub fn put_change_reserved(change: &Change, out: &mut Vec<u8>)
    requires has { HasRecord change.now }
    requires room { vec_len out.old + MOST_RECORD ≤ vec_capacity out.old }
    ensures items { out.new.items ≡ out.old.items ++ record_bytes (record_of change.now) }
    ensures len { vec_len out.new ≡ vec_len out.old + length (record_bytes (record_of change.now)) }
    ensures grows { vec_capacity out.old ≤ vec_capacity out.new }
{
    match put_change(change, out) {
        Ok(()) => {}
        Err(AllocError) => unreachable!(),
    }
}
