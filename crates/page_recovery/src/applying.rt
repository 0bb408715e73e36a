//! Groups of the log, applied to pages in memory, each one whole after the one before it.
//! A page takes the records of a group only where its LSN is lower, and has the group's LSN then.

ghost use Rattle.std.specs.Prelude.{◌<◌, ◌++◌, ◌∷◌, [], ℕ, Option, List, length, All, IfOk, IfSome, IfNone, OnOk};
ghost use Rattle.log_format.specs.declared.group.Group.{Group as GroupValue};
ghost use Rattle.log_format.specs.Group.{IsGroup};
ghost use Rattle.law_logged_pages.specs.Applied.{with_group};
ghost use Rattle.page_recovery.specs.Pages.{ArePages, BecomeBy};
ghost use Rattle.page_recovery.specs.Applying.{IsWithin, AreBroughtOn, MayApply, MayApplyAll, IsPast, ArePast, edited_below, edited_so_far};
ghost use Rattle.page_recovery.specs.Applying.{stamped_at, stamped_below, stamped_so_far};

use crate::pages::Pages;
use log_format::{Group, Record};
use std::alloc::Global;
use store_api::NoMemory;

/// The page of a record, if it is one of a page that the file can't have.
fn page_past(record: &Record, count: u32) -> Option<u32>
    ensures past { IfSome result (λ page. IsPast count page record.now) }
    ensures within { IfNone result (IsWithin count record.now) }
{
    match record {
        Record::Put { page, .. } | Record::Fresh { page } => {
            if *page < count { None } else { Some(*page) }
        }
        Record::RowPut { .. } | Record::RowRemove { .. } | Record::NewTable { .. } => None,
    }
}

fn page_past_in(records: &[Record], count: u32) -> Option<u32>
    ensures past { IfSome result (λ page. ArePast count page records.now) }
    ensures within { IfNone result (All (IsWithin count) records.now) }
{
    for record in records {
        if let Some(page) = page_past(record, count) {
            return Some(page);
        }
    }
    None
}

/// Makes a record's edit, where its page is older than the group.
fn edit(alloc: Global, pages: &mut Pages, record: &Record, lsn: u64) -> Result<(), NoMemory>
    requires { MayApply (length pages.old) record.now }
    ensures { OnOk result (BecomeBy (edited_below lsn record.now) pages.old pages.new) }
{
    match record {
        Record::Put { page, at, bytes } => {
            if pages.lsn(*page) < lsn {
                pages.write(alloc, *page, *at, bytes.as_slice())?;
            }
            Ok(())
        }
        Record::Fresh { page } => {
            if pages.lsn(*page) < lsn {
                pages.clear(alloc, *page)?;
            }
            Ok(())
        }
        Record::RowPut { .. } | Record::RowRemove { .. } | Record::NewTable { .. } => Ok(()),
    }
}

/// Makes the edits of all records, in their order.
fn edit_all(alloc: Global, pages: &mut Pages, records: &[Record], lsn: u64) -> Result<(), NoMemory>
    requires whole { ArePages pages.old }
    requires may { MayApplyAll (length pages.old) records.now }
    ensures { OnOk result (BecomeBy (edited_so_far lsn records.now) pages.old pages.new) }
{
    for record in records {
        edit(alloc, pages, record, lsn)?;
    }
    Ok(())
}

/// Gives a page its number and the LSN, where it is older.
fn stamp_page(alloc: Global, pages: &mut Pages, page: u32, lsn: u64) -> Result<(), NoMemory>
    requires { page < length pages.old }
    ensures { OnOk result (BecomeBy (stamped_at page lsn) pages.old pages.new) }
{
    if pages.lsn(page) < lsn {
        pages.stamp(alloc, page, lsn)?;
    }
    Ok(())
}

/// Gives a record's page its number and the group's LSN, where it is older.
fn stamp(alloc: Global, pages: &mut Pages, record: &Record, lsn: u64) -> Result<(), NoMemory>
    requires { MayApply (length pages.old) record.now }
    ensures { OnOk result (BecomeBy (stamped_below lsn record.now) pages.old pages.new) }
{
    match record {
        Record::Put { page, .. } | Record::Fresh { page } => stamp_page(alloc, pages, *page, lsn),
        Record::RowPut { .. } | Record::RowRemove { .. } | Record::NewTable { .. } => Ok(()),
    }
}

/// Gives all pages of the records their numbers and the group's LSN, where they are older.
fn stamp_all(alloc: Global, pages: &mut Pages, records: &[Record], lsn: u64) -> Result<(), NoMemory>
    requires whole { ArePages pages.old }
    requires may { MayApplyAll (length pages.old) records.now }
    ensures { OnOk result (BecomeBy (stamped_so_far lsn records.now) pages.old pages.new) }
{
    for record in records {
        stamp(alloc, pages, record, lsn)?;
    }
    Ok(())
}

/// Applies a group. After an error the pages are good for nothing.
fn apply_group(alloc: Global, pages: &mut Pages, group: &Group) -> Result<(), NoMemory>
    requires whole { ArePages pages.old }
    requires is { IsGroup group.now }
    requires within { All (IsWithin (length pages.old)) group.now.records }
    ensures whole { OnOk result (ArePages pages.new) }
    ensures became { OnOk result (BecomeBy (λ page bytes. with_group page group.now bytes) pages.old pages.new) }
{
    edit_all(alloc, pages, group.records.as_slice(), group.lsn)?;
    stamp_all(alloc, pages, group.records.as_slice(), group.lsn)
}

/// Applies one group more, unless some page was named that the file can't have, by this group or before. Answers such a page.
/// After an error the pages are good for nothing.
pub fn apply_next(
    alloc: Global,
    pages: &mut Pages,
    past: Option<u32>,
    group: &Group,
) -> Result<Option<u32>, NoMemory>
    requires { IsGroup group.now }
    ensures { IfOk result (λ now. (start : List (Option (List ℕ))) (groups : List GroupValue) → AreBroughtOn start groups past pages.old
        → AreBroughtOn start (groups ++ group.now ∷ []) now pages.new) }
{
    if let Some(page) = past {
        return Ok(Some(page));
    }
    if let Some(page) = page_past_in(group.records.as_slice(), pages.count()) {
        return Ok(Some(page));
    }
    apply_group(alloc, pages, group)?;
    Ok(None)
}
