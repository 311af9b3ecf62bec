// Putting into a ring; also for places and numbers kept outside a `Ring`.
ghost use Rattle.std.specs.Prelude.{◌≡◌, min, [], ◌∷◌, ◌++◌, slice_set};
ghost use Rattle.records.specs.Kept.{count_after, room_of, place_of, following, next_after};
ghost use Rattle.records.specs.Kept.{places_after, kept, last_of};

// The greatest count, 4,294,967,295.
const MOST_COUNTED: usize = u32::MAX as usize;

/// The count with one more; it stops at 4,294,967,295. (docs/RULES.md, "Purpose and units")
pub fn count_after(put: u32) -> u32
    ensures { result ≡ count_after put }
{
    put.saturating_add(1)
}

/// How many of so many places a ring uses: at most as many as its count can tell apart.
pub(crate) fn room_of(places: usize) -> usize
    ensures { result ≡ min places 4294967295 }
{
    places.min(MOST_COUNTED)
}

/// How many elements a ring over so many places keeps: as many as were put, up to its room.
pub(crate) fn kept_count(places: usize, put: u32) -> usize
    ensures { result ≡ min put (min places 4294967295) }
{
    room_of(places).min(put as usize)
}

/// The place where an element is put: the first that has none, or else the next place, or the first of all if the next
/// is none of the ring's.
pub(crate) fn place_of(room: usize, next: usize, put: u32) -> usize
    ensures { result ≡ place_of room next put }
{
    let filled = put as usize;
    if filled < room {
        filled
    } else if next < room {
        next
    } else {
        0
    }
}

/// The place after a place; after the last comes the first.
pub(crate) fn place_after(room: usize, place: usize) -> usize
    ensures { result ≡ following room place }
{
    let behind = place.saturating_add(1);
    if behind < room { behind } else { 0 }
}

// Writes an element at a place, if there is such a place. The contract of `get_mut` says nothing of the changed slice.
fn write<T: Copy>(places: &mut [T], place: usize, x: T)
    ensures { places.new ≡ slice_set places.old place x }
{
    if place < places.len() {
        places[place] = x;
    }
}

/// Puts an element into a ring over these places, and returns the ring's numbers after it: the next place to write, and
/// the count of all that were put. Both are 0 before the first. (docs/RULES.md, "Rings and copying")
pub fn put_in<T: Copy>(places: &mut [T], next: usize, put: u32, x: T) -> (usize, u32)
    ensures places { places.new ≡ places_after places.old next put x }
    ensures next { result.0 ≡ next_after (room_of places.old) next put }
    ensures put { result.1 ≡ count_after put }
    ensures kept { kept places.new result.0 result.1 ≡
        last_of (room_of places.old) (kept places.old next put ++ (x ∷ [])) }
{
    let room = room_of(places.len());
    let place = place_of(room, next, put);
    write(places, place, x);
    (place_after(room, place), count_after(put))
}
