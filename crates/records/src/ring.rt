// The ring: it keeps the newest elements in places that the caller lends.
ghost use Rattle.std.specs.Prelude.{◌≡◌, [], ◌∷◌, ◌++◌, length};
ghost use Rattle.records.specs.Kept.{count_after, places_after, next_after, room_of, last_of};
ghost use Rattle.records.specs.Copied.{copied_count, copied_into};
ghost use Rattle.records.specs.Rings.{kept_by, room_by};

use crate::copying::copy_kept;
use crate::putting::{kept_count, put_in};

/// A ring for any kind of element. It keeps the newest, as many as there are places, and counts all that were put.
/// (docs/RULES.md, "Rings and copying")
#[derive(Drop)]
pub struct Ring<'a, T> {
    places: &'a mut [T],
    // the place to write next
    next: usize,
    // how many were put in all
    put: u32,
}

impl<'a, T: Copy> Ring<'a, T> {
    /// A ring over these places, with nothing put yet. Without places it only counts. Of more than 4,294,967,295 places
    /// it uses the first so many.
    pub fn new(places: &'a mut [T]) -> Ring<'a, T>
        ensures kept { kept_by result ≡ [] }
        ensures room { room_by result ≡ room_of places.old }
        ensures put { result.put ≡ 0 }
        ensures next { result.next ≡ 0 }
        ensures places { result.places.now ≡ places.old }
        ensures lent { result.places.ghost_name ≡ places.entry.ghost_name }
    {
        Ring {
            places,
            next: 0,
            put: 0,
        }
    }

    /// Puts an element. Once each place has one, the oldest is dropped for it.
    pub fn put(&mut self, x: T)
        ensures kept { kept_by self.new ≡ last_of (room_by self.old) (kept_by self.old ++ (x ∷ [])) }
        ensures room { room_by self.new ≡ room_by self.old }
        ensures put { self.new.put ≡ count_after self.old.put }
        ensures next { self.new.next ≡ next_after (room_by self.old) self.old.next self.old.put }
        ensures places { self.new.places.now ≡ places_after self.old.places.now self.old.next self.old.put x }
        ensures lent { self.new.places.ghost_name ≡ self.old.places.ghost_name }
    {
        (self.next, self.put) = put_in(self.places, self.next, self.put, x);
    }

    /// How many were put in all; the count stops at 4,294,967,295.
    pub fn count(&self) -> u32
        ensures { result ≡ self.now.put }
    {
        self.put
    }

    /// How many elements are kept.
    pub fn len(&self) -> usize
        ensures { result ≡ length (kept_by self.now) }
    {
        kept_count(self.places.len(), self.put)
    }

    /// Copies what is kept, the oldest first, into a list from a place on, up to the list's end at most, and returns
    /// how many elements it copied; 0 if `from` lies beyond the end. The rest of the list stays as it was.
    pub fn copy_to(&self, list: &mut [T], from: usize) -> usize
        ensures many { result ≡ copied_count (kept_by self.now) list.old from }
        ensures list { list.new ≡ copied_into (kept_by self.now) list.old from }
    {
        copy_kept(self.places, self.next, self.put, list, from)
    }
}
