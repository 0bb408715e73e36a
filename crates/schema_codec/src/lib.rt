//! The bytes of a schema, and of the numbers and byte strings around it: the log and the catalog both spell tables so.
//! The spelling stands in specs/Schema.antt, how it is read in specs/Reading.antt. Nothing here knows of a log or a page.
#![tactic(auto)]

mod fits;
mod numbers;
mod reading;
mod stop;
mod write;

pub use fits::schema_fits;
pub use numbers::{extend_reserved, put_u16, put_u16_reserved, put_u32, put_u64, put_u64_reserved};
pub use reading::{bytes_of, name_of, schema_of, u8_of, u16_of, u32_of, u64_of};
pub use stop::Stop;
pub use write::{put_name, put_schema};
