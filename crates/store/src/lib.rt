// A ring of N-Chars: a record by value beside a lent slice of places. Every call takes any record and any slice.
#![tactic(auto)]

ghost use Rattle.std.specs.Prelude.{◌≡◌, false, ◌||◌, length, ltb};
ghost use Rattle.words.specs.Words.{word_at};
ghost use Rattle.store.specs.Ring.{around, waiting, bad_store, free, empty, full};
ghost use Rattle.store.specs.Changes.{fresh_store, put_store, put_places, front_of, dropped};
ghost use Rattle.store.specs.Changes.{without_first, without_found, found_in, found};
ghost use Rattle.store.specs.StoreWords.{store_words, store_of};

// Where the first waiting N-Char stands, and how many wait. The places are lent to each method that needs them: whoever keeps the
// record, C too, keeps them apart.
#[derive(Clone, Copy, Debug, PartialEq, Eq)]
pub struct Store {
    pub front: usize,
    pub len: usize,
}

// How many N-Chars stand from the front through the first end, all where there is none: the count says something in both cases,
// so it is no Option.
#[derive(Clone, Copy, Debug, PartialEq, Eq)]
pub struct Found {
    pub count: usize,
    pub ended: bool,
}

// The record as the words that keep it, and the record that two words mean.
impl From<Store> for [u32; 2] {
    ghost from_gives = { λ s words. words ≡ store_words s };

    #[inline]
    fn from(s: Store) -> [u32; 2] {
        [words::narrow(s.front), words::narrow(s.len)]
    }
}

impl From<[u32; 2]> for Store {
    ghost from_gives = { λ words s. s ≡ store_of (word_at words 0) (word_at words 1) };

    #[inline]
    #[tactic(auto, unfolding(crate::specs::StoreWords::store_of))]
    fn from([front, len]: [u32; 2]) -> Store {
        Store {
            front: front as usize,
            len: len as usize,
        }
    }
}

fn around(size: usize, at: usize) -> usize
    ensures { result ≡ around size at }
{
    if at < size { at } else { at - size }
}

impl Store {
    #[tactic(auto, unfolding(crate::specs::Changes::fresh_store))]
    pub fn fresh() -> Store
        ensures { result ≡ fresh_store }
    {
        Store { front: 0, len: 0 }
    }

    pub fn is_bad(self, size: usize) -> bool
        ensures { result ≡ bad_store size self }
    {
        size <= self.front || size < self.len
    }

    pub fn is_empty(self) -> bool
        ensures { result ≡ empty self }
    {
        self.len == 0
    }

    pub fn is_full(self, size: usize) -> bool
        ensures { result ≡ full size self }
    {
        size <= self.len
    }

    // Places that hold no N-Char: 0 where the record says more than the size.
    pub fn free_places(self, size: usize) -> usize
        ensures { result ≡ free size self }
    {
        size.saturating_sub(self.len)
    }

    // One N-Char behind those that wait: `Store::fresh().put(&mut places, 65)`.
    #[tactic(auto, using(crate::proofs::RingLaws::front_below, crate::proofs::PlaceLaws::around_below), unfolding(crate::specs::Changes::put_store, crate::specs::Changes::put_places))]
    pub fn put(self, places: &mut [u16], n: u16) -> Store
        ensures { (result ≡ put_store (length places.old) self n) × (places.new ≡ put_places places.old self n) }
    {
        let size = places.len();
        if self.is_bad(size) || self.is_full(size) {
            return self;
        }
        places[around(size, self.front + self.len)] = n;
        Store {
            front: self.front,
            len: self.len + 1,
        }
    }

    // The N-Char at the front, as it is read.
    pub fn look(self, places: &[u16]) -> u16
        ensures { result ≡ front_of places.now self }
    {
        match places.get(self.front) {
            Some(&stored) => vocabulary::read_as(stored),
            None => 0,
        }
    }

    #[tactic(auto, using(crate::proofs::RingLaws::front_below, crate::proofs::PlaceLaws::around_below), unfolding(crate::specs::Changes::dropped))]
    fn without(self, places: &[u16], count: usize) -> Store
        ensures { result ≡ dropped (length places.now) self count }
    {
        let size = places.len();
        if self.is_bad(size) || self.len < count {
            return self;
        }
        Store {
            front: around(size, self.front + count),
            len: self.len - count,
        }
    }

    // The store without its first N-Char: `s.drop_first(&places)` behind `s.look(&places)` takes it.
    pub fn drop_first(self, places: &[u16]) -> Store
        ensures { result ≡ without_first places.now self }
    {
        self.without(places, 1)
    }

    // The store without what was found: `s.drop_found(&places, s.find_end(&places))` discards through the first end.
    pub fn drop_found(self, places: &[u16], found: Found) -> Store
        ensures { result ≡ without_found places.now self found }
    {
        self.without(places, found.count)
    }

    fn walk(self, places: &[u16]) -> Found
        requires { bad_store (length places.now) self ≡ false }
        ensures { result ≡ found_in (waiting places.now self) }
    {
        // No count: it goes around the ring.
        let mut at = self.front;
        for passed in 0..self.len {
            if vocabulary::is_end(places[at]) {
                return Found {
                    count: passed + 1,
                    ended: true,
                };
            }
            at = around(places.len(), at + 1);
        }
        Found {
            count: self.len,
            ended: false,
        }
    }

    // From the front through the first end: a walk, and the only one.
    #[tactic(auto, unfolding(crate::specs::Changes::found))]
    pub fn find_end(self, places: &[u16]) -> Found
        ensures { result ≡ found places.now self }
    {
        if self.is_bad(places.len()) {
            Found {
                count: 0,
                ended: false,
            }
        } else {
            self.walk(places)
        }
    }
}
