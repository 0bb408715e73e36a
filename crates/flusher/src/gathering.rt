//! Changed pages of a pool are taken into a batch, each as bytes that can be read as this page again.
//! The flusher alone asks here.

ghost use Rattle.std.specs.Prelude.{◌≡◌, ℕ, suc, ◌<◌, ◌≤◌, ◌++◌, length, take, drop};
ghost use Rattle.std.specs.Int.{w32, to_be_bytes};
ghost use Rattle.store_api.specs.Areas.{PassesSum};
ghost use Rattle.stored_pages.specs.Words.{lsn_of};
ghost use Rattle.doublewrite.specs.Batches.{page_at};
ghost use Rattle.law_logged_pages.specs.Stages.{AreBytes};
ghost use Rattle.flusher.specs.Gathering.{IsSealed, Gathers};

use big_endian::{u32_bytes, u64_bytes};
use buffer_pool::Pool;
use doublewrite::Batch;
use stored_pages::layout::{LSN, NUMBER, PAGE, SLOTS};
use stored_pages::read_u64;
use sum64::fnv;

/// The bytes with the page's number.
fn with_number(page: u32, bytes: &[u8]) -> [u8; PAGE]
    requires { length bytes.now ≡ PAGE }
    ensures { result ≡ take 8 bytes.now ++ (to_be_bytes w32 page ++ drop 12 bytes.now) }
{
    let mut numbered = [0; PAGE];
    numbered.copy_from_slice(bytes);
    numbered[NUMBER..LSN].copy_from_slice(&u32_bytes(page));
    numbered
}

/// The bytes with their sum.
fn with_sum(bytes: &[u8; PAGE]) -> [u8; PAGE]
    ensures sum { PassesSum result }
    ensures behind { drop 8 result ≡ drop 8 bytes.now }
    ensures size { length result ≡ PAGE }
    ensures front { AreBytes 8 result }
{
    let sum = fnv(bytes.split_at(NUMBER).1);
    let mut summed = *bytes;
    summed[..NUMBER].copy_from_slice(&u64_bytes(sum));
    summed
}

/// The page with its number and its sum.
fn sealed(page: u32, bytes: &[u8]) -> [u8; PAGE]
    requires { length bytes.now ≡ PAGE }
    ensures { IsSealed page bytes.now result }
{
    with_sum(&with_number(page, bytes))
}

/// Takes the page if it was changed.
fn gather_page(pool: &Pool, page: u32, batch: &mut Batch)
    requires room { batch.old.count < SLOTS }
    requires gathered { Gathers page pool.now batch.old }
    ensures { Gathers (suc page) pool.now batch.new }
{
    if pool.is_dirty(page) {
        batch.add_bytes(&sealed(page, pool.bytes(page)));
    }
}

/// Takes the changed pages, from the lowest number on, as far as there is room.
pub fn gather(pool: &Pool, batch: &mut Batch)
    requires { batch.old.count ≡ 0 }
    ensures { (upto : ℕ) × Gathers upto pool.now batch.new × (batch.new.count ≡ 0 → length pool.now.slots ≤ upto) }
{
    let mut page = 0;
    while page < pool.pages() && batch.len() < SLOTS {
        gather_page(pool, page, batch);
        page += 1;
    }
}

/// The greatest LSN of its pages.
pub fn newest_lsn(batch: &Batch) -> u64
    ensures { (k : ℕ) → k < batch.now.count → lsn_of (page_at batch.now k) ≤ result }
{
    let mut newest = 0;
    for slot in 0..batch.len() {
        newest = newest.max(read_u64(batch.page(slot), LSN));
    }
    newest
}
