//! Versions as definitions speak of them: what transactions made of the row of a place. A removed row leaves a version
//! without a row. Nothing that runs makes one: worlds keep and give the `Version` of `store_api`.

use inno_types::Row;

/// What a transaction made of a row: a row, or none.
#[derive(Drop)]
pub struct Version {
    pub writer: u64,
    pub row: Option<Row>,
}
