// Copying a list, or what a ring keeps, into a list; also for places and numbers kept outside a `Ring`.
ghost use Rattle.std.specs.Prelude.{◌≡◌, min, ◌++◌, if◌then◌else◌, nat_lt};
ghost use Rattle.records.specs.Kept.{place_of, older, newer, kept};
ghost use Rattle.records.specs.Copied.{copied_count, copied_into};

use crate::putting::{place_of, room_of};

// Where a copy into a list of this length begins: at the stated place, or at the end if the place lies beyond it.
fn start_in(length: usize, from: usize) -> usize
    ensures { result ≡ min from length }
{
    from.min(length)
}

/// Copies a list over the front of another, as much of it as there is room for, and returns how many elements it
/// copied. The rest of the other list stays as it was.
pub fn copy_front<T: Copy>(source: &[T], list: &mut [T]) -> usize
    ensures many { result ≡ copied_count source.now list.old 0 }
    ensures list { list.new ≡ copied_into source.now list.old 0 }
{
    let many = source.len().min(list.len());
    list[..many].copy_from_slice(&source[..many]);
    many
}

// Copies two lists, the second after the first, over the front of another, and returns how many elements it copied.
fn copy_both<T: Copy>(first: &[T], second: &[T], list: &mut [T]) -> usize
    ensures many { result ≡ copied_count (first.now ++ second.now) list.old 0 }
    ensures list { list.new ≡ copied_into (first.now ++ second.now) list.old 0 }
{
    let done = copy_front(first, list);
    done + copy_front(second, &mut list[done..])
}

// Where the older part of what is kept begins: at the end of the room until each place has an element.
fn oldest_place(room: usize, next: usize, put: u32) -> usize
    ensures { result ≡ (if nat_lt put room then room else place_of room next put) }
{
    if (put as usize) < room {
        room
    } else {
        place_of(room, next, put)
    }
}

// The older part of what is kept: once each place has an element, those from the next place on.
fn older_part<T>(places: &[T], next: usize, put: u32) -> &[T]
    ensures { result.now ≡ older places.now next put }
{
    let room = room_of(places.len());
    &places[oldest_place(room, next, put)..room]
}

// The newer part of what is kept: the elements before the next place.
fn newer_part<T>(places: &[T], next: usize, put: u32) -> &[T]
    ensures { result.now ≡ newer places.now next put }
{
    let room = room_of(places.len());
    &places[..place_of(room, next, put)]
}

/// Copies what a ring keeps, the oldest first, into a list from a place on, up to the list's end at most, and returns
/// how many elements it copied; 0 if `from` lies beyond the end. The rest of the list stays as it was. `next` and `put`
/// are the ring's numbers, as `put_in` returns them. (docs/RULES.md, "Rings and copying")
pub fn copy_kept<T: Copy>(places: &[T], next: usize, put: u32, list: &mut [T], from: usize) -> usize
    ensures many { result ≡ copied_count (kept places.now next put) list.old from }
    ensures list { list.new ≡ copied_into (kept places.now next put) list.old from }
{
    let first = older_part(places, next, put);
    let second = newer_part(places, next, put);
    let start = start_in(list.len(), from);
    copy_both(first, second, &mut list[start..])
}
