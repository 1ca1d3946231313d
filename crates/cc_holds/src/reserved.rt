//! An insert where there is room.

ghost use Rattle.std.specs.Prelude.{◌≡◌, ◌+◌, ◌<◌, ◌≤◌, insert, vec_len, vec_capacity};

/// Puts an item in at a place, where there is room: this can't fail.
pub(crate) fn insert_reserved<T: Drop>(items: &mut Vec<T>, place: usize, item: T)
    requires within { place ≤ vec_len items.old }
    requires room { vec_len items.old < vec_capacity items.old }
    ensures items { items.new.items ≡ insert items.old.items place item }
    ensures len { vec_len items.new ≡ vec_len items.old + 1 }
    ensures capacity { vec_capacity items.new ≡ vec_capacity items.old }
{
    let _ = items.insert(place, item);
}
