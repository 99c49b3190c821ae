// What the calls test (01, The ten refusals), each test by itself; `tested` makes them in the paper's order.
#![tactic(auto, unfolding(crate::specs::LinkWords::link_words, store::specs::StoreWords::store_of))]

ghost use Rattle.std.specs.Prelude.{◌≡◌, ◌||◌, ◌&&◌, not, eqb, ltb, length};
ghost use Rattle.words.specs.Words.{word_at, truth, truth_word};
ghost use Rattle.store.specs.Ring.{bad_store, empty, full};
ghost use Rattle.time.specs.Time.{bad_time};
ghost use Rattle.link.specs.Records.{Link};
ghost use Rattle.link.specs.Moves.{state_number};
ghost use Rattle.link.specs.Table.{state_of};
ghost use Rattle.link.specs.Send.{offer_number, offer_value};
ghost use Rattle.link.specs.Refusals.{bad_held, bad_given, bad_record, bad_rx_size, bad_tx_size, lacks_room, bad_receive};
ghost use Rattle.link.specs.LinkWords.{link_words, is_link, time_of, is_time, offer_of};
ghost use Rattle.link.specs.InPlace.{Reads};

use crate::fields::{
    AUTO, CODE, DISABLED, DISCARDING, GIVEN_OUT, GOT_NULL, HELD, NULL_SENT, OFFERED, PUT, RX, SENT,
    START, STATE, STORED, TAKEN, TIMER, TX, TimeWords, Words,
};
use crate::{LinkState, fields, moves};

// How many places a receive store, a transmit store and any store may have.
pub(crate) const LEAST_RX: usize = 9;

pub(crate) const LEAST_TX: usize = 1;

const MOST: usize = 4096;

fn no_state(word: u32) -> bool
    ensures { result ≡ not (eqb word (state_number (state_of word))) }
{
    u32::from(LinkState::Run) < word
}

fn no_truth(word: u32) -> bool
    ensures { result ≡ not (eqb word (truth_word (truth word))) }
{
    1 < word
}

// A Time-Code waits and has eight bits, or none waits and its word is 0.
fn no_offer(offered: u32, code: u32) -> bool
    ensures { result ≡ not (eqb offered (offer_number (offer_of offered code)) && eqb code (offer_value (offer_of offered code))) }
{
    match offered {
        0 => code != 0,
        1 => 255 < code,
        _ => true,
    }
}

// Whether the words are no end's: a number that no state, truth or waiting Time-Code has. The words are tested each by what it
// may hold, so there is no one test to loop over; from the last on, which made most calls faster than from the first.
#[tactic(auto, using(crate::proofs::LinkLaws::no_link))]
pub(crate) fn no_link(words: &Words) -> bool
    ensures { result ≡ not (is_link words.now) }
{
    no_offer(words[OFFERED], words[CODE])
        | no_truth(words[DISCARDING])
        | no_truth(words[PUT])
        | no_truth(words[TAKEN])
        | no_truth(words[SENT])
        | no_truth(words[STORED])
        | no_truth(words[AUTO])
        | no_truth(words[START])
        | no_truth(words[DISABLED])
        | no_truth(words[NULL_SENT])
        | no_truth(words[GOT_NULL])
        | no_state(words[STATE])
}

fn bad_held(state: LinkState, held: u32) -> bool
    ensures { result ≡ bad_held state held }
{
    (56 < held) | (!matches!(state, LinkState::Run) & (held != 0))
}

fn bad_given(state: LinkState, given: u32) -> bool
    ensures { result ≡ bad_given state given }
{
    (56 < given) | (!matches!(state, LinkState::Connecting | LinkState::Run) & (given != 0))
}

// The numbers of a record in this state, one by one.
#[inline(always)]
fn bad_in(words: &Words, state: LinkState) -> bool
    ensures { (l : Link) → words.now ≡ link_words l → state ≡ l.stage.state → result ≡ bad_record l }
{
    bad_held(state, words[HELD])
        || bad_given(state, words[GIVEN_OUT])
        || moves::limit(state) <= words[TIMER]
}

// The states with credit have a branch of their own, which is compiled to their limits: without it a tick takes a tenth more
// time, a control change an eighth.
pub(crate) fn bad_record(words: &Words) -> bool
    ensures { Reads words.now bad_record result }
{
    match fields::state_in(words) {
        LinkState::Run => bad_in(words, LinkState::Run),
        LinkState::Connecting => bad_in(words, LinkState::Connecting),
        other => bad_in(words, other),
    }
}

// A store has from its least to 4096 places.
pub(crate) fn bad_size(size: usize, least: usize) -> bool
    ensures { result ≡ (ltb size least || ltb 4096 size) }
{
    (size < least) | (MOST < size)
}

pub(crate) fn bad_sizes(rx: usize, tx: usize) -> bool
    ensures { result ≡ (bad_rx_size rx || bad_tx_size tx) }
{
    bad_size(rx, LEAST_RX) | bad_size(tx, LEAST_TX)
}

// One free place more than is given out is needed.
fn lacks_room(words: &Words, size: usize) -> bool
    ensures { Reads words.now (lacks_room size) result }
{
    let given = words[GIVEN_OUT] as usize;
    let free = fields::store_at(words, RX).free_places(size);
    ((given != 0) | words::truth(words[STORED])) & (free <= given)
}

pub(crate) fn bad_receive(words: &Words, size: usize) -> bool
    ensures { Reads words.now (bad_receive size) result }
{
    fields::store_at(words, RX).is_bad(size) || lacks_room(words, size)
}

pub(crate) fn bad_transmit(words: &Words, size: usize) -> bool
    ensures { Reads words.now (λ (l : Link). bad_store size l.tx) result }
{
    fields::store_at(words, TX).is_bad(size)
}

pub(crate) fn bad_stores(words: &Words, rx: usize, tx: usize) -> bool
    ensures { Reads words.now (λ (l : Link). bad_receive rx l || bad_store tx l.tx) result }
{
    bad_receive(words, rx) || bad_transmit(words, tx)
}

// A time record's words: a count up to 63, and a truth.
#[tactic(auto, using(crate::proofs::LinkLaws::no_time), unfolding(crate::specs::LinkWords::time_of))]
pub(crate) fn bad_time(time: &TimeWords) -> bool
    ensures { result ≡ (not (is_time time.now) || bad_time (time_of time.now)) }
{
    no_truth(time[1]) | (63 < time[0])
}

pub(crate) fn no_place(words: &Words, tx: usize) -> bool
    ensures { Reads words.now (λ (l : Link). not l.marks.discarding && full tx l.tx) result }
{
    !words::truth(words[DISCARDING]) & fields::store_at(words, TX).is_full(tx)
}

pub(crate) fn is_empty(words: &Words) -> bool
    ensures { Reads words.now (λ (l : Link). empty l.rx) result }
{
    fields::store_at(words, RX).is_empty()
}
