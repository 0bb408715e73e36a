//! What pages read as after a crash. The newest pages are to be read once, when they are the newest; what older groups made
//! of them was read then, and nobody looks at the records of a group again.

ghost use Rattle.std.specs.Prelude.{◌≡◌, ℕ, ◌+◌, ◌<◌, ◌≤◌, Option, List, ◌++◌, length};
ghost use Rattle.store_api.specs.Areas.{State, Image, IsImage, IsHonest};
ghost use Rattle.store_api.specs.declared.limits.TheConstants.{MOST_PAGES};
ghost use Rattle.inno_db.specs.Database.{Database};
ghost use Rattle.log_format.specs.declared.group.Group.{Group as GroupValue};
ghost use Rattle.stored_pages.specs.Reading.{IsPageIn};
ghost use Rattle.law_logged_pages.specs.Applied.{logical};
ghost use Rattle.law_logged_pages.specs.Keeping.{IsRun, Keeps, durable};
ghost use Rattle.law_logged_pages.specs.Readings.{IgnoresSums, ReadsAlong, HoldsCommits};

/// A way to read pages as a database. Contracts alone read it.
pub trait PageReading {
    ghost reads: { (ℕ → List ℕ) → Database → Type 0 };
}

/// Whatever a crash leaves reads as the database after some commits, with all that were acknowledged among them.
pub fn a_crash_leaves_some_commits<R: PageReading>()
    ensures { (after : ℕ → Database) (commits acked run first flushed : ℕ)
        (groups : List GroupValue) (base : ℕ → List ℕ) (s : State) (image : Image) (found : ℕ → Option (List ℕ))
        → IgnoresSums R.reads → IsRun first groups base → ReadsAlong R.reads after commits acked first flushed groups base
        → Keeps run first flushed groups base s → IsImage s image → IsHonest s image
        → ((page : ℕ) → page < MOST_PAGES → IsPageIn image.pages image.double page (found page))
        → HoldsCommits R.reads after commits acked run first image found }
{}

/// A step appends at most one group, and maybe commits. If the newest pages read as the newest database, all is as it should be.
pub fn a_step_reads_on<R: PageReading>()
    ensures { (after later : ℕ → Database) (commits now acked first flushed : ℕ)
        (groups more : List GroupValue) (base : ℕ → List ℕ) → ReadsAlong R.reads after commits acked first flushed groups base
        → length more ≤ 1 → commits ≤ now → ((n : ℕ) → n ≤ commits → later n ≡ after n)
        → R.reads (logical base (groups ++ more) (length (groups ++ more))) (later now)
        → ReadsAlong R.reads later now acked first flushed (groups ++ more) base }
{}

/// Once all groups are flushed, each commit may be acknowledged.
pub fn a_flush_reads_on<R: PageReading>()
    ensures { (after : ℕ → Database) (commits acked first flushed last : ℕ)
        (groups : List GroupValue) (base : ℕ → List ℕ) → ReadsAlong R.reads after commits acked first flushed groups base
        → flushed ≤ last → last + 1 ≡ first + length groups → ReadsAlong R.reads after commits commits first last groups base }
{}
