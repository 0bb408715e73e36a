//! Recovery: the pages that a crash leaves, and the groups that it leaves of the log.
//! No other crate cites it; `page_recovery` cites the lemmas of `stages` that lead to it.

ghost use Rattle.std.specs.Prelude.{ℕ, List};
ghost use Rattle.store_api.specs.Areas.{State, Image, IsImage, IsHonest};
ghost use Rattle.log_format.specs.declared.group.Group.{Group as GroupValue};
ghost use Rattle.law_logged_pages.specs.Keeping.{IsRun, Keeps, Recovers};

/// Whatever a crash leaves at a moment that keeps the pages of a run stands for the pages after some of its groups, with
/// all that were flushed among them.
pub fn an_image_recovers()
    ensures { (run first flushed : ℕ) (groups : List GroupValue) (base : ℕ → List ℕ) (s : State) (image : Image)
        → IsRun first groups base → Keeps run first flushed groups base s → IsImage s image → IsHonest s image
        → Recovers run first flushed groups base image }
{}
