// Where each field of an end stands in its words, and the fields that are more than a number or a truth.
#![tactic(auto, unfolding(crate::specs::LinkWords::link_words))]

ghost use Rattle.std.specs.Prelude.{◌≡◌, ◌+◌, ◌<◌, length, set};
ghost use Rattle.words.specs.Words.{truth_word};
ghost use Rattle.store.specs.Changes.{put_store, put_places, without_first};
ghost use Rattle.link.specs.declared.LinkState.{LinkState};
ghost use Rattle.link.specs.Records.{Link};
ghost use Rattle.link.specs.Moves.{is_state};
ghost use Rattle.link.specs.Table.{state_of};
ghost use Rattle.link.specs.Credit.{with_held, with_given};
ghost use Rattle.link.specs.InPlace.{Reads, ReadsGood, Writes, SmallEnough, FitsStore, store_in, with_store};

use crate::{GivenOut, Held, LinkState};
use store::Store;

pub const WORDS: usize = 20;

pub type Words = [u32; WORDS];

// A time record's words: the count, and whether the last Time-Code gave a tick out.
pub const TIME_WORDS: usize = 2;

pub type TimeWords = [u32; TIME_WORDS];

// The stage.
pub const STATE: usize = 0;

pub(crate) const TIMER: usize = 1;

pub(crate) const GOT_NULL: usize = 2;

pub(crate) const NULL_SENT: usize = 3;

// The controls.
pub(crate) const DISABLED: usize = 4;

pub(crate) const START: usize = 5;

pub(crate) const AUTO: usize = 6;

// The credit.
pub(crate) const HELD: usize = 7;

pub(crate) const GIVEN_OUT: usize = 8;

// Of the last N-Char stored, sent, taken and put, whether it was data; and whether puts are discarded.
pub(crate) const STORED: usize = 9;

pub(crate) const SENT: usize = 10;

pub(crate) const TAKEN: usize = 11;

pub(crate) const PUT: usize = 12;

pub(crate) const DISCARDING: usize = 13;

// The waiting Time-Code: whether there is one, and its eight bits.
pub(crate) const OFFERED: usize = 14;

pub(crate) const CODE: usize = 15;

// The two stores, each in two words.
#[derive(Clone, Copy)]
pub(crate) struct StorePlace {
    at: usize,
    ghost within: { at < 19 },
}

pub(crate) const RX: StorePlace = StorePlace { at: 16 };

pub(crate) const TX: StorePlace = StorePlace { at: 18 };

// A truth is written only where it changes: words that are tested together are loaded together, and that load waits for
// any store to one of them.
pub(crate) fn set_truth(words: &mut Words, at: usize, b: bool)
    requires { at < 20 }
    ensures { words.new ≡ set words.old at (truth_word b) }
{
    let word = words::truth_word(b);
    if words[at] != word {
        words[at] = word;
    }
}

// Any number past the others is read as Run's; only words that no end has hold one, and no cell of the table of moves. The test
// of words has refused them by then, so a `TryFrom` would have an error that cannot come.
pub(crate) fn state_of(n: u32) -> LinkState
    ensures { result ≡ state_of n }
{
    match n {
        0 => LinkState::ErrorReset,
        1 => LinkState::ErrorWait,
        2 => LinkState::Ready,
        3 => LinkState::Started,
        4 => LinkState::Connecting,
        _ => LinkState::Run,
    }
}

pub(crate) fn state_in(words: &Words) -> LinkState
    ensures { Reads words.now (λ (l : Link). l.stage.state) result }
{
    state_of(words[STATE])
}

pub(crate) fn is_in(words: &Words, s: LinkState) -> bool
    ensures { Reads words.now (λ (l : Link). is_state l.stage.state s) result }
{
    words[STATE] == u32::from(s)
}

pub(crate) fn held_in(words: &Words) -> Held
    ensures { ReadsGood words.now (λ (l : Link). l.credit.held) result }
{
    Held(words::byte(words[HELD]))
}

pub(crate) fn given_in(words: &Words) -> GivenOut
    ensures { ReadsGood words.now (λ (l : Link). l.credit.given) result }
{
    GivenOut(words::byte(words[GIVEN_OUT]))
}

pub(crate) fn set_held(words: &mut Words, held: Held)
    ensures { Writes words.old (λ (l : Link). with_held l held.0) words.new }
{
    words[HELD] = u32::from(held.0);
}

pub(crate) fn set_given(words: &mut Words, given: GivenOut)
    ensures { Writes words.old (λ (l : Link). with_given l given.0) words.new }
{
    words[GIVEN_OUT] = u32::from(given.0);
}

// The store whose two words stand there.
#[tactic(auto, unfolding(store::specs::StoreWords::store_of))]
pub(crate) fn store_at(words: &Words, place: StorePlace) -> Store
    ensures { (result ≡ store_in words.now place.at) × FitsStore result }
{
    Store::from([words[place.at], words[place.at + 1]])
}

pub(crate) fn set_store(words: &mut Words, place: StorePlace, s: Store)
    ensures { FitsStore s → words.new ≡ with_store words.old place.at s }
{
    let [front, len] = <[u32; 2]>::from(s);
    words[place.at] = front;
    words[place.at + 1] = len;
}

// One N-Char put into the store there, which has these places: C's slices, of any length until they are tested.
#[tactic(auto, using(crate::proofs::StoreFits::put_fits))]
pub(crate) fn put_at(words: &mut Words, place: StorePlace, places: &mut [u16], n: u16)
    ensures { (SmallEnough places.old →
        words.new ≡ with_store words.old place.at (put_store (length places.old) (store_in words.old place.at) n))
        × (places.new ≡ put_places places.old (store_in words.old place.at) n) }
{
    let store = store_at(words, place);
    set_store(words, place, store.put(places, n));
}

// The first N-Char dropped from the store there.
#[tactic(auto, using(crate::proofs::StoreFits::drop_fits))]
pub(crate) fn drop_at(words: &mut Words, place: StorePlace, places: &[u16])
    ensures { SmallEnough places.now →
        words.new ≡ with_store words.old place.at (without_first places.now (store_in words.old place.at)) }
{
    let store = store_at(words, place);
    set_store(words, place, store.drop_first(places));
}
