//! What calls over pages answer where they can't do what is asked.
//! These types stand here because all crates over pages share them.

ghost use Rattle.std.specs.Prelude.{◌≡◌};
ghost use Rattle.store_api.specs.declared.visits.SpaceBad.TheVariants.{Visit as SpaceVisit, NoMemory as NoSpaceMemory};
ghost use Rattle.store_api.specs.declared.visits.FindBad.TheVariants.{Visit as FindVisit, NoMemory as NoFindMemory};

use crate::outside::NoMemory;

/// Why a page isn't shown.
#[derive(Clone, Copy, Debug, PartialEq, Eq)]
pub enum Visit {
    /// The disk failed.
    Failed,
    /// The page isn't in the pool, and no frame is clean and unfixed.
    Again,
    /// The page breaks a rule of the files. Rule 0 is its sum or its number.
    Bad { page: u32, rule: u8 },
}

/// Why a page isn't made.
#[derive(Clone, Copy, Debug, PartialEq, Eq)]
pub enum FreshBad {
    Again,
    NoMemory,
}

/// Why no page is taken or given back.
#[derive(Clone, Copy, Debug)]
pub enum SpaceBad {
    /// No page is free.
    Full,
    Visit(Visit),
    NoMemory,
}

/// Why something isn't found on pages.
#[derive(Clone, Copy, Debug)]
pub enum FindBad {
    Visit(Visit),
    /// What the page holds breaks a rule of the files.
    Malformed { page: u32, rule: u8 },
    NoMemory,
}

impl From<Visit> for SpaceBad {
    ghost from_gives = { λ v e. e ≡ SpaceVisit v };

    fn from(visit: Visit) -> SpaceBad {
        SpaceBad::Visit(visit)
    }
}

impl From<NoMemory> for SpaceBad {
    ghost from_gives = { λ _ e. e ≡ NoSpaceMemory };

    fn from(_: NoMemory) -> SpaceBad {
        SpaceBad::NoMemory
    }
}

impl From<Visit> for FindBad {
    ghost from_gives = { λ v e. e ≡ FindVisit v };

    fn from(visit: Visit) -> FindBad {
        FindBad::Visit(visit)
    }
}

impl From<NoMemory> for FindBad {
    ghost from_gives = { λ _ e. e ≡ NoFindMemory };

    fn from(_: NoMemory) -> FindBad {
        FindBad::NoMemory
    }
}
