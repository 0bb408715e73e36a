//! Places: where a row stands. They are in order by table, and then by the value of the primary key.
//! The definitions of versions speak of them; nothing that runs makes one.

ghost use Rattle.std.specs.Ordering.{eq_by_cmp, is_eq};
ghost use Rattle.row_versions.specs.Chains.{place_order};

use inno_db::{of_value, order};
use inno_types::Value;
use std::cmp::Ordering;

/// A table's number, and the value of its primary key.
#[derive(Drop)]
pub struct Place {
    pub table: u8,
    pub key: Value,
}

impl PartialEq for Place {
    ghost use Rattle.std.specs.Cmp.{partial_equiv_from_equiv};
    ghost use Rattle.row_versions.specs.Laws.{same_place_equiv};

    ghost eq = { λ a b. is_eq (place_order a b) };

    ghost laws = { partial_equiv_from_equiv same_place_equiv };

    fn eq(&self, other: &Place) -> bool {
        self.cmp(other) == Ordering::Equal
    }
}

impl Eq for Place {
    ghost use Rattle.row_versions.specs.Laws.{same_place_equiv};

    ghost laws = { same_place_equiv };
}

impl PartialOrd for Place {
    ghost use Rattle.std.specs.Prelude.{Some};
    ghost use Rattle.row_versions.specs.Laws.{place_partial};

    ghost partial_cmp = { λ a b. Some (place_order a b) };

    ghost laws = { place_partial };

    fn partial_cmp(&self, other: &Place) -> Option<Ordering> {
        Some(self.cmp(other))
    }
}

impl Ord for Place {
    ghost use Rattle.std.specs.Prelude.{refl};
    ghost use Rattle.row_versions.specs.Laws.{place_total};

    ghost cmp = { λ a b. place_order a b };

    ghost total = { place_total };

    ghost matches_partial_cmp = { λ a b. refl };

    ghost matches_eq = { λ a b. refl };

    fn cmp(&self, other: &Place) -> Ordering {
        match self.table.cmp(&other.table) {
            Ordering::Equal => order(of_value(&self.key), of_value(&other.key)),
            apart => apart,
        }
    }
}
