//! What is known of a page that passes the check: it is a page of the tree by itself, and on level 0 a leaf. Nothing calls
//! this: its contract is the law.

ghost use Rattle.std.specs.Prelude.{◌≢◌, ℕ, ◌<◌, List};
ghost use Rattle.store_api.specs.declared.limits.TheConstants.{MOST_PAGES};
ghost use Rattle.page_format.specs.Shape.{HasFields, HasOrder};
ghost use Rattle.law_flat_tree.specs.Leaves.{IsLeaf};
ghost use Rattle.law_flat_tree.specs.Pages.{node_of, leaf_pairs};
ghost use Rattle.btree.specs.declared.tree.Tree.{Tree};
ghost use Rattle.btree.specs.Sound.{IsTreePage};
ghost use Rattle.tree_check.specs.Nodes.{IsNode};

/// A page that was read and passes the check is a page of the tree by itself; on level 0 it is a leaf whose pairs rise
/// between its fences.
pub fn a_node_is_a_page_of_its_tree()
    ensures page { (tree : Tree) (pages : ℕ → List ℕ) (page level : ℕ) → page ≢ 0 → page < MOST_PAGES
        → HasFields (pages page) → IsNode tree level (pages page) → IsTreePage tree pages page }
    ensures leaf { (tree : Tree) (bytes : List ℕ) → 0 < tree.key_len → HasOrder bytes
        → IsNode tree 0 bytes → IsLeaf (node_of tree.key_len bytes) (leaf_pairs tree.key_len bytes) }
{}
