//! Items for a caller who has room for so many.
ghost use Rattle.std.specs.Prelude.{◌≡◌, length};
ghost use Rattle.sefunjaro.specs.Rooms.{filled, filled_at, filled_from};

/// Copies as many of the items to the front of the room as fit there, and answers how many items there are.
pub fn fill<T: Copy>(items: &[T], room: &mut [T]) -> usize
    ensures room { room.new ≡ filled items.now room.old }
    ensures count { result ≡ length items.now }
{
    let count = room.len().min(items.len());
    room[..count].copy_from_slice(&items[..count]);
    items.len()
}

/// Puts an item at a place of the room, if there is such a place.
pub(crate) fn put<T: Copy>(item: T, place: usize, room: &mut [T])
    ensures { room.new ≡ filled_at place item room.old }
{
    if place < room.len() {
        room[place] = item;
    }
}

/// Puts the items into the room from a place on, as far as they fit.
pub(crate) fn fill_from<T: Copy>(items: &[T], place: usize, room: &mut [T])
    ensures { room.new ≡ filled_from place items.now room.old }
{
    if place < room.len() {
        fill(items, &mut room[place..]);
    }
}
