//! Page 0 says of which run the log is, whatever a crash leaves of it.
//! `page_checkpoint` and `page_recovery` cite the lemmas behind them (proofs/Spared.antt).

ghost use Rattle.std.specs.Prelude.{◌≡◌, ◌≢◌, ℕ, Some, None, List};
ghost use Rattle.store_api.specs.Areas.{State, Image, IsImage, IsHonest};
ghost use Rattle.stored_pages.specs.declared.layout.TheConstants.{MAGIC, RUN, FIRST_LSN};
ghost use Rattle.stored_pages.specs.Words.{u64_at};
ghost use Rattle.log_format.specs.declared.group.Group.{Group as GroupValue};
ghost use Rattle.log_format.specs.Group.{AreGroups};
ghost use Rattle.stored_pages.specs.Reading.{IsPageIn};
ghost use Rattle.law_logged_pages.specs.Stages.{IsBase, WasOnce};
ghost use Rattle.law_logged_pages.specs.Heads.{head_of, SpareHead};
ghost use Rattle.law_logged_pages.specs.Keeping.{IsRun, Keeps};

/// Each stage of page 0 has the head with which the run began, if no group puts anything there.
pub fn page_0_keeps_its_head()
    ensures { (base : ℕ → List ℕ) (first : ℕ) (groups : List GroupValue) (count : ℕ) (bytes : List ℕ) → AreGroups first groups
        → IsBase first (base 0) → SpareHead groups → WasOnce base groups count 0 bytes → head_of bytes ≡ head_of (base 0) }
{}

/// So whatever a crash leaves of it has the magic, the run and the first LSN with which the run began, and it leaves the page.
pub fn an_image_says_its_run()
    ensures says { (run first flushed : ℕ) (groups : List GroupValue) (base : ℕ → List ℕ) (s : State) (image : Image) (bytes : List ℕ)
        → IsRun first groups base → SpareHead groups → Keeps run first flushed groups base s → IsImage s image → IsHonest s image
        → IsPageIn image.pages image.double 0 (Some bytes)
        → (u64_at MAGIC bytes ≡ u64_at MAGIC (base 0)) × (u64_at RUN bytes ≡ u64_at RUN (base 0)) × (u64_at FIRST_LSN bytes ≡ u64_at FIRST_LSN (base 0)) }
    ensures found { (run first flushed : ℕ) (groups : List GroupValue) (base : ℕ → List ℕ) (s : State) (image : Image)
        → u64_at MAGIC (base 0) ≢ 0 → Keeps run first flushed groups base s → IsImage s image → IsHonest s image
        → IsPageIn image.pages image.double 0 None → ⊥ }
{}
