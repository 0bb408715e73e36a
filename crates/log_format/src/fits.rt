//! Whether the numbers of a group fit their fields, and what is put lies in its page.
//! `Group::fits` asks; of schemas `schema_codec` knows.

ghost use Rattle.std.specs.Prelude.{◌↔◌, IsTrue, All};
ghost use Rattle.schema_codec.specs.Schema.{IsCounted};
ghost use Rattle.log_format.specs.Group.{IsValue, IsRecord};

use crate::group::Record;
use inno_types::Value;
use schema_codec::schema_fits;

fn value_fits(value: &Value) -> bool
    ensures { IsTrue result ↔ IsValue value.now }
{
    match value {
        Value::Null => true,
        Value::Int(number) => {
            let _number = *number;
            true
        }
        Value::Text(text) => text.len() < 256,
    }
}

fn values_fit(items: &[Value]) -> bool
    ensures { IsTrue result ↔ IsCounted IsValue items.now }
{
    for item in items {
        if !value_fits(item) {
            return false;
        }
    }
    items.len() < 256
}

fn record_fits(change: &Record) -> bool
    ensures { IsTrue result ↔ IsRecord change.now }
{
    match change {
        Record::Put { page, at, bytes } => {
            let _page = *page;
            let at = usize::from(*at);
            at >= 20 && at <= 4096 && bytes.len() <= 4096 - at
        }
        Record::Fresh { page } => {
            let _page = *page;
            true
        }
        Record::RowPut { table, row } => {
            let _table = *table;
            values_fit(row.as_slice())
        }
        Record::RowRemove { table, key } => {
            let _table = *table;
            value_fits(key)
        }
        Record::NewTable { schema } => schema_fits(schema),
    }
}

pub fn records_fit(items: &[Record]) -> bool
    ensures { IsTrue result ↔ All IsRecord items.now }
{
    for item in items {
        if !record_fits(item) {
            return false;
        }
    }
    true
}
