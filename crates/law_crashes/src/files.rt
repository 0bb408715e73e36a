//! Laws: what files stand for, and what a mount makes of them.
//! Nothing calls them; `commit_log` and `file_zero` cite the lemmas behind two of them (proofs/Mount.antt).

ghost use Rattle.std.specs.Prelude.{◌≡◌, ◌+◌, ◌-◌, ◌≤◌, ℕ, List, [], ◌∷◌, length, Some};
ghost use Rattle.store_api.specs.Areas.{Contents, State, Image, IsImage, seen_image};
ghost use Rattle.store_api.specs.Past.{Past, Ticks, Now, Meanwhile};
ghost use Rattle.inno_db.specs.Database.{Database};
ghost use Rattle.inno_model.specs.declared.event.Event.TheVariants.{Opened};
ghost use Rattle.inno_model.specs.Past.{changed};
ghost use Rattle.log_format.specs.declared.group.Group.{Group as GroupValue};
ghost use Rattle.redo_log.specs.View.{LogView};
ghost use Rattle.redo_log.specs.Logged.{GoesOnAt, IsLogged};
ghost use Rattle.law_crashes.specs.Records.{no_db, changes_in};
ghost use Rattle.law_crashes.specs.Files.{StandsFor, Files, LeavesFiles};
ghost use Rattle.law_crashes.specs.Since.{KeepsSince, HasHeader, LogRests, IsScanned, StillScans, IsDurable, IsMounted};

/// An image stands for one database at most.
pub fn files_stand_for_one_database()
    ensures { (image : Image) (a b : Database) → StandsFor image a → StandsFor image b → a ≡ b }
{}

/// Where a mount has read these groups, the files stood for their database, and whatever a crash leaves while it writes
/// zeros after them still does.
pub fn files_that_were_read_stand()
    ensures stand { (run first block rest : ℕ) (base : List GroupValue) (double pages : Contents) (root : Past) (s : State)
        → ((m : ℕ) (t : State) → root.state_at m ≡ Some t → IsImage t (seen_image t)) → Ticks root.moment
        → root.state_at root.moment ≡ Some s → s.log.writes ≡ [] → IsScanned run first block base rest double pages s
        → HasHeader run first double pages → Files root root (changed no_db (changes_in base)) }
    ensures keep { (run first block rest : ℕ) (base : List GroupValue) (double pages : Contents) (root mid now : Past)
        → ((m : ℕ) (s : State) → mid.state_at m ≡ Some s → IsImage s (seen_image s)) → LeavesFiles root mid
        → Now (IsScanned run first block base rest double pages) mid
        → ((db : Database) → Files root mid db → LogRests mid × HasHeader run first double pages)
        → Meanwhile (λ s. LogRests mid → StillScans run first base double pages s) mid now
        → KeepsSince root now (Opened (changed no_db (changes_in base)) ∷ []) }
{}

/// After a mount an engine may go on with a log that begins at its block and with its LSN.
pub fn an_engine_goes_on_from_a_mount()
    ensures { (root now : Past) (run block next : ℕ) (db : Database) (log : LogView) (due : ℕ → ℕ)
        → IsMounted root now run block next db → log.run ≡ run → log.next ≡ next → log.flushed ≡ next - 1
        → ((scan_first : ℕ) (groups : List GroupValue) (c : Contents) → next ≡ scan_first + length groups
        → GoesOnAt run scan_first block groups c → IsLogged scan_first groups log c)
        → ((s : ℕ) → next ≤ due s + 1) → IsDurable root now (Opened db ∷ []) log due }
{}
