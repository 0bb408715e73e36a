//! A try of what a world over pages is to show, on rows alone: pages that show the versions of a world that agrees with its
//! past, and its open transactions, read as the rows after all commits. The bytes of the pages are left aside.

ghost use Rattle.std.specs.Prelude.{◌≡◌, ℕ, ◌<◌, ◌≤◌, Option, List, ◌++◌, length};
ghost use Rattle.store_api.specs.Areas.{State, Image, IsImage, IsHonest};
ghost use Rattle.store_api.specs.declared.limits.TheConstants.{MOST_PAGES};
ghost use Rattle.log_format.specs.declared.group.Group.{Group as GroupValue};
ghost use Rattle.stored_pages.specs.Reading.{IsPageIn};
ghost use Rattle.law_logged_pages.specs.Applied.{logical};
ghost use Rattle.law_logged_pages.specs.Keeping.{IsRun, Keeps};
ghost use Rattle.law_logged_pages.specs.Readings.{IgnoresSums, ReadsAlong, HoldsCommits, HeldPagesRead};
ghost use Rattle.law_logged_pages.specs.HeldRows.{Shown, Rows, HeldRows, AreHeld, read_by};

/// However pages show versions and slots.
pub fn held_rows_read()
    ensures { (show : (ℕ → List ℕ) → Shown) → HeldPagesRead (read_by show) AreHeld (λ world pages. show pages ≡ world.shown) }
{}

/// So a step from one held world to another reads on, if it appends at most one group and the newest pages show the world.
pub fn a_step_of_held_rows_reads_on()
    ensures { (show : (ℕ → List ℕ) → Shown) (world : HeldRows) (after later : ℕ → Rows) (commits now acked first flushed : ℕ)
        (groups more : List GroupValue) (base : ℕ → List ℕ) → ReadsAlong (read_by show) after commits acked first flushed groups base
        → length more ≤ 1 → commits ≤ now → ((n : ℕ) → n ≤ commits → later n ≡ after n) → AreHeld world later now
        → show (logical base (groups ++ more) (length (groups ++ more))) ≡ world.shown
        → ReadsAlong (read_by show) later now acked first flushed (groups ++ more) base }
{}

/// And whatever a crash leaves shows the rows after some commits, with all that were acknowledged among them.
pub fn held_rows_outlast_a_crash()
    ensures { (show : (ℕ → List ℕ) → Shown) (after : ℕ → Rows) (commits acked run first flushed : ℕ) (groups : List GroupValue)
        (base : ℕ → List ℕ) (s : State) (image : Image) (found : ℕ → Option (List ℕ)) → IgnoresSums (read_by show)
        → IsRun first groups base → ReadsAlong (read_by show) after commits acked first flushed groups base
        → Keeps run first flushed groups base s → IsImage s image → IsHonest s image
        → ((page : ℕ) → page < MOST_PAGES → IsPageIn image.pages image.double page (found page))
        → HoldsCommits (read_by show) after commits acked run first image found }
{}
