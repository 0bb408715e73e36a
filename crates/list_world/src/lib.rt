//! A world in memory: `parts_world` over `list_store`. Statements drive it through the trait `World`; the engine alone
//! makes it, joins sessions and adds tables.
#![tactic(auto)]

use list_store::ListStore;
use parts_world::PartsWorld;

/// A world in memory.
pub type ListWorld = PartsWorld<ListStore>;
