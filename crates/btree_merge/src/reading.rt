//! A page that a mini-transaction asks for while it goes on, copied, so that others can be asked for.
//! Only `look` and `tidying` ask here, and no page is changed by it.

ghost use Rattle.std.specs.Prelude.{◌≡◌, ◌≤◌, [], ◌∷◌, length, IsTrue, IfOk, IfErr, OnOk};
ghost use Rattle.mtr.specs.declared.store.TheConstants.{MOST_VISITED};
ghost use Rattle.mtr.specs.Seen.{visit, is_in, IsShown};
ghost use Rattle.mtr.specs.Calls.{Asks, Consults};
ghost use Rattle.btree.specs.Walks.{IsReadableLeaf};
ghost use Rattle.btree_merge.specs.Going.{IsStop};

use btree::{Tree, is_readable_leaf};
use mtr::Mtr;
use store_api::{PageRule, Visit};
use stored_pages::layout::PAGE;

/// The bytes of a page, asked for.
fn asked<M: Mtr>(m: &mut M, page: u32) -> Result<[u8; PAGE], Visit>
    requires { length (visit page (M.state m.old).visited) ≤ MOST_VISITED }
    ensures shown { IfOk result (λ bytes. IsTrue (M.state m.old).told → IsShown ((M.state m.old).seen page) bytes) }
    ensures asks { Asks page (M.state m.old) result (M.state m.new) }
{
    let mut copy = [0; PAGE];
    copy.copy_from_slice(m.bytes(page)?);
    Ok(copy)
}

/// The bytes of a page.
pub fn copy_of<M: Mtr>(m: &mut M, page: u32) -> Result<[u8; PAGE], Visit>
    requires { length (visit page (M.state m.old).visited) ≤ MOST_VISITED }
    ensures shown { IfOk result (λ bytes. IsTrue (M.state m.old).told → IsShown ((M.state m.old).seen page) bytes) }
    ensures looks { Consults (page ∷ []) (M.state m.old) (M.state m.new) }
    ensures dealt_with { OnOk result (IsTrue (is_in page (M.state m.new).visited)) }
    ensures reason { IfErr result (IsStop M.state (M.state m.old) (M.state m.new)) }
{
    asked(m, page)
}

/// The bytes of a page that is a leaf.
pub fn leaf_copy<M: Mtr>(m: &mut M, tree: Tree, page: u32) -> Result<[u8; PAGE], Visit>
    requires few { length (visit page (M.state m.old).visited) ≤ MOST_VISITED }
    requires leaf { IsTrue (M.state m.old).told → IsReadableLeaf tree ((M.state m.old).seen page) }
    ensures shown { IfOk result (λ bytes. IsTrue (M.state m.old).told → IsShown ((M.state m.old).seen page) bytes) }
    ensures readable { IfOk result (λ bytes. IsReadableLeaf tree bytes) }
    ensures looks { Consults (page ∷ []) (M.state m.old) (M.state m.new) }
    ensures dealt_with { OnOk result (IsTrue (is_in page (M.state m.new).visited)) }
    ensures reason { IfErr result (IsStop M.state (M.state m.old) (M.state m.new)) }
{
    let bytes = copy_of(m, page)?;
    if !is_readable_leaf(&bytes, tree) {
        return Err(Visit::Bad {
            page,
            rule: PageRule::Fields as u8,
        });
    }
    Ok(bytes)
}
