//! Lists of savepoints, the newest first.
//! The settings alone call these, on the list that they hold.

ghost use Rattle.std.specs.Prelude.{◌≡◌, ◌≤◌, ◌<◌, ◌∷◌, vec_len, vec_capacity};
ghost use Rattle.sql_history.specs.Settings.{without, back_to, made_at};
ghost use Rattle.sql_history.specs.Named.{is_named};

use crate::Save;
use inno_types::Bytes;

/// Whether it is the savepoint of this name. Names are compared byte by byte.
fn is_named(save: &Save, name: &Bytes) -> bool
    ensures { result ≡ is_named name.now save.now }
{
    save.name.as_slice() == name.as_slice()
}

/// How many changes the transaction had made at the savepoint of this name.
pub fn find(saves: &[Save], name: &Bytes) -> Option<u64>
    ensures { result ≡ made_at name.now saves.now }
{
    for save in saves {
        if is_named(save, name) {
            return Some(save.made);
        }
    }
    None
}

/// Puts it before the others, for which there is room.
pub fn put_first(saves: &mut Vec<Save>, save: Save)
    requires { vec_len saves.old < vec_capacity saves.old }
    ensures { saves.new.items ≡ save ∷ saves.old.items }
{
    let _ = saves.insert(0, save);
}

/// Drops the savepoint of this name.
pub fn drop_named(saves: &mut Vec<Save>, name: &Bytes)
    ensures items { saves.new.items ≡ without name.now saves.old.items }
    ensures fewer { vec_len saves.new ≤ vec_len saves.old }
    ensures capacity { vec_capacity saves.new ≡ vec_capacity saves.old }
{
    saves.retain(|save| !is_named(save, name));
}

/// Drops the savepoints that were made after the one of this name.
pub fn drop_later(saves: &mut Vec<Save>, name: &Bytes)
    ensures { saves.new.items ≡ back_to name.now saves.old.items }
{
    while !saves.is_empty() {
        if is_named(&saves[0], name) {
            return;
        }
        let _ = saves.remove(0);
    }
}
