//! Appending where there is room. Only drafts ask here.
//! Room for the group was promised before, so nothing fails.

ghost use Rattle.std.specs.Prelude.{◌≡◌, ◌+◌, ◌≤◌, List};
ghost use Rattle.log_format.specs.declared.group.Record.{Record as RecordValue};
ghost use Rattle.log_format.specs.Group.{IsSpelled};
ghost use Rattle.redo_log.specs.View.{room_of};
ghost use Rattle.commit_log.specs.DraftsLogging.{IsAppended};

use redo_log::Log;
use store_api::NoMemory;

/// Appends a group of records that are spelled already, where the spare holds it.
pub fn append_reserved(count: u16, records: &[u8], log: &mut Log)
    requires { (rs : List RecordValue) × IsSpelled rs count records.now × (room_of rs ≤ log.old.spare) }
    ensures { (rs : List RecordValue) → IsSpelled rs count records.now → IsAppended rs log.old log.new }
{
    match log.append_spelled(count, records) {
        Ok(_) => {}
        Err(NoMemory) => unreachable!(),
    }
}
