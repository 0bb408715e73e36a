//! A page that is asked for is fixed in the pool; one that isn't there is read from the disk, into the frame that goes next.
//! What is under way calls this; nothing here changes a page.

ghost use Rattle.std.specs.Prelude.{◌≡◌, ◌⊎◌, ◌<◌, ◌≤◌, length, drop, IfErr, OnOk, Err, None, is_some, true, false};
ghost use Rattle.sum64.specs.Fnv.{fnv_of};
ghost use Rattle.store_api.specs.declared.visits.Visit.TheVariants.{Again as VisitAgain};
ghost use Rattle.buffer_pool.specs.Frames.{is_pooled, fixes_of, next_idle};
ghost use Rattle.paged_txn.specs.View as view;
ghost use Rattle.paged_txn.specs.Bringing.{IsHeld, IsLetIn, IsRefused};

use buffer_pool::{Pool, bytes_of_place};
use store_api::{Disk, PageRule, Visit};
use stored_pages::layout::{NUMBER, PAGE, SUM};
use stored_pages::{read_u32, read_u64};
use sum64::fnv;

/// The sum of a page's bytes, but for those where its own sum stands.
fn sum_of(bytes: &[u8; PAGE]) -> u64
    ensures { result ≡ fnv_of (drop 8 bytes.now) }
{
    fnv(bytes.split_at(NUMBER).1)
}

/// Whether a page's sum and number are right.
#[tactic(auto, unfolding(crate::specs::View::is_good))]
fn is_good(bytes: &[u8; PAGE], page: u32) -> bool
    ensures { result ≡ view.is_good page bytes.now }
{
    let sum = read_u64(bytes, SUM) == sum_of(bytes);
    sum & (read_u32(bytes, NUMBER) == page)
}

/// Reads a page that isn't in the pool into the frame that goes next.
fn let_in<D: Disk>(pool: &mut Pool, disk: &mut D, page: u32) -> Result<(), Visit>
    requires within { page < length pool.old.slots }
    requires absent { is_pooled pool.old page ≡ false }
    requires free { is_some (next_idle pool.old) ≡ true }
    ensures ok { OnOk result (IsLetIn page (D.past disk.old) (D.past disk.new) pool.old pool.new) }
    ensures refused { IfErr result (IsRefused page (D.past disk.old) (D.past disk.new) pool.old) }
    ensures same { IfErr result (λ _. pool.new ≡ pool.old) }
    ensures faults { (D.past disk.old).faults ≤ (D.past disk.new).faults }
{
    let Ok(bytes) = bytes_of_place(disk, page) else {
        return Err(Visit::Failed);
    };
    if !is_good(&bytes, page) {
        return Err(Visit::Bad {
            page,
            rule: PageRule::Sum as u8,
        });
    }
    pool.let_in(page, &bytes);
    Ok(())
}

/// Fixes a page that nobody has fixed. One that isn't in the pool is read.
pub fn bring<D: Disk>(pool: &mut Pool, disk: &mut D, page: u32) -> Result<(), Visit>
    requires { fixes_of pool.old page ≡ 0 }
    ensures ok { OnOk result (IsHeld page (D.past disk.old) (D.past disk.new) pool.old pool.new
        ⊎ IsLetIn page (D.past disk.old) (D.past disk.new) pool.old pool.new) }
    ensures refused { IfErr result (IsRefused page (D.past disk.old) (D.past disk.new) pool.old) }
    ensures same { IfErr result (λ _. pool.new ≡ pool.old) }
    ensures shut { is_pooled pool.old page ≡ false → next_idle pool.old ≡ None → result ≡ Err VisitAgain }
    ensures faults { (D.past disk.old).faults ≤ (D.past disk.new).faults }
{
    if page < pool.pages() && pool.is_pooled(page) {
        pool.hold(page);
        return Ok(());
    }
    if !pool.has_idle() {
        return Err(Visit::Again);
    }
    if page >= pool.pages() {
        return Err(Visit::Bad {
            page,
            rule: PageRule::Sum as u8,
        });
    }
    let_in(pool, disk, page)
}
