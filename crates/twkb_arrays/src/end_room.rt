//! The array of ends, which may have no places: then no ends are asked for.
ghost use Rattle.std.specs.Prelude.{◌≡◌, ◌<◌, ◌≤◌, ◌⊎◌, ◌+◌, ◌++◌, ◌∷◌, [], drop, length, take, true, false};

// Whether an array of this length gets no ends, or has a place after those of `done` geometries.
#[inline(always)]
pub(crate) fn has_end_room(end_room: usize, done: usize) -> bool
    ensures has { result ≡ true → (end_room ≡ 0) ⊎ (done < end_room) }
    ensures lacks { result ≡ false → (0 < end_room) × (end_room ≤ done) }
{
    if end_room == 0 {
        return true;
    }
    done < end_room
}

// Writes the end of a geometry at this place, which the array must have, unless it has none.
#[inline(always)]
pub(crate) fn put_end(ends: &mut [u64], place: usize, end: u64)
    requires room { (length ends.old ≡ 0) ⊎ (place < length ends.old) }
    ensures none { length ends.old ≡ 0 → ends.new ≡ ends.old }
    ensures put { place < length ends.old
        → ends.new ≡ take place ends.old ++ ((end ∷ []) ++ drop (place + 1) ends.old) }
{
    if ends.is_empty() {
        return;
    }
    ends[place] = end;
}
