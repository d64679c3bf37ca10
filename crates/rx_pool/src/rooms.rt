//! The rooms of slots: how one is filled, and how one is written over with another.

ghost use Rattle.std.specs.Prelude.{◌≡◌, ◌<◌, ◌≤◌, [], length, slice_index_or, slice_set, vec_capacity};
ghost use Rattle.rx_pool.specs.Rooms.{written, capacities, padded};

// Fills a room up to the size of a slot with zeros.
pub(crate) fn fill(room: &mut Vec<u8>, size: usize)
    requires short { length room.old.items ≤ size }
    requires reserved { size ≤ vec_capacity room.old }
    ensures filled { room.new.items ≡ padded size room.old.items }
    ensures capacity { vec_capacity room.old ≤ vec_capacity room.new }
{
    while room.len() < size {
        match room.push(0) {
            Ok(()) => {}
            // There is room for all of them.
            Err(_) => unreachable!(),
        }
    }
}

// Writes the bytes of one room over those of another, which are as many.
pub(crate) fn copy_over(rooms: &mut [Vec<u8>], from: usize, to: usize)
    requires from { from < length rooms.old }
    requires to { to < length rooms.old }
    requires alike { length (slice_index_or (written rooms.old) from []) ≡ length (slice_index_or (written rooms.old) to []) }
    ensures copied { written rooms.new ≡ slice_set (written rooms.old) to (slice_index_or (written rooms.old) from []) }
    ensures capacities { capacities rooms.new ≡ capacities rooms.old }
{
    if from < to {
        let (front, back) = rooms.split_at_mut(to);
        back[0].copy_from_slice(&front[from]);
    } else if to < from {
        let (front, back) = rooms.split_at_mut(from);
        front[to].copy_from_slice(&back[0]);
    }
}
