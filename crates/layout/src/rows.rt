// Rows of which no two have the same key, over the front of a room.
ghost use Rattle.std.specs.Prelude.{◌≡◌, Bool, Some, None, cond, length, position};
ghost use Rattle.layout.specs.Rows.{rows_after, count_after, fits};

// A row, and which others have its key.
pub trait Row: Copy {
    ghost same: { Self → Self → Bool };

    fn is_same(self, row: Self) -> bool
        ensures { result ≡ same self row };
}

// Where the row of that key stands.
fn find<R: Row>(rows: &[R], new: R) -> Option<usize>
    ensures { result ≡ position (R.same new) rows.now }
{
    rows.iter().position(|row| new.is_same(*row))
}

// Kept: each kind of rows has its own struct and a call of this, as the Rust and the definitions name them; one over both is no plainer.
// "A new row replaces the one with the same .. in its place, else is appended": how many rows there are then. Where one more does
// not fit there is none, and the room is as it was.
pub(crate) fn put<R: Row>(room: &mut [R], count: usize, new: R) -> Option<usize>
    ensures count { result ≡ cond (fits R.same new count room.old (length room.old)) (Some (count_after R.same new count room.old)) None }
    ensures rows { room.new ≡ cond (fits R.same new count room.old (length room.old)) (rows_after R.same new count room.old) room.old }
{
    let rows = &room[..count.min(room.len())];
    let at = find(rows, new).unwrap_or(rows.len());
    if room.len() <= at {
        return None;
    }
    room[at] = new;
    Some(count.max(at + 1))
}
