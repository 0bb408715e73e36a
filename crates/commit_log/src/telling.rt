//! The change that a record of the log tells; nothing is copied.
//! No crate calls it yet.

ghost use Rattle.std.specs.Prelude.{◌≡◌, [], ◌∷◌, IfSome, IfNone};
ghost use Rattle.law_crashes.specs.Records.{change_of};

use inno_db::Change;
use log_format::Record;

/// The change that a record tells. Records of pages tell none.
pub fn change_told(logged: Record) -> Option<Change>
    ensures change { IfSome result (λ change. change_of logged ≡ change ∷ []) }
    ensures none { IfNone result (change_of logged ≡ []) }
{
    match logged {
        Record::NewTable { schema } => Some(Change::Create { schema }),
        Record::RowPut { table, row } => Some(Change::Put { table, row }),
        Record::RowRemove { table, key } => Some(Change::Remove { table, key }),
        Record::Put { .. } | Record::Fresh { .. } => None,
    }
}
