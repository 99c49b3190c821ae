// Going to ErrorReset by a move, settling after an event, and reset (01, Going to ErrorReset by a move; Reset).
#![tactic(auto, unfolding(crate::specs::LinkWords::link_words, store::specs::StoreWords::store_of, store::specs::Changes::fresh_store, crate::specs::Recovery::closed_link, crate::specs::Recovery::closed_places, crate::specs::Recovery::rest_discarded, crate::specs::Recovery::goes_down, crate::specs::Recovery::moves_to, crate::specs::Recovery::settles, crate::specs::Reset::emptied_places, crate::specs::Reset::resets))]

ghost use Rattle.std.specs.Prelude.{◌≡◌, false, length};
ghost use Rattle.words.specs.Words.{narrow};
ghost use Rattle.link.specs.Records.{Link};
ghost use Rattle.vocabulary.specs.Choice.{pick};
ghost use Rattle.vocabulary.specs.NChars.{EEP};
ghost use Rattle.store.specs.Changes.{fresh_store, put_store};
ghost use Rattle.link.specs.Ends.{with_rx};
ghost use Rattle.link.specs.Recovery.{cleared, closed_link, closed_places, rest_discarded, goes_down, moves_to, settles};
ghost use Rattle.link.specs.Reset.{emptied_places, resets};
ghost use Rattle.link.specs.Moves.{is_state};
ghost use Rattle.link.specs.LinkWords.{link_words};
ghost use Rattle.link.specs.InPlace.{Reads, Writes, SmallEnough, Settles};

use crate::fields::{
    CODE, DISCARDING, GIVEN_OUT, GOT_NULL, HELD, NULL_SENT, OFFERED, PUT, RX, SENT, STATE, STORED,
    TAKEN, TIMER, TX, Words,
};
use crate::{Event, LinkState, fields, moves};
use store::Store;

fn clear(words: &mut Words)
    ensures { Writes words.old cleared words.new }
{
    words[STATE] = 0;
    words[TIMER] = 0;
    words[GOT_NULL] = 0;
    words[NULL_SENT] = 0;
    words[HELD] = 0;
    words[GIVEN_OUT] = 0;
    words[OFFERED] = 0;
    words[CODE] = 0;
}

// An unfinished packet in the receive store is closed.
fn close(words: &mut Words, rx: &mut [u16])
    ensures { (SmallEnough rx.old → Writes words.old (closed_link (length rx.old)) words.new)
        × Reads words.old (closed_places rx.old) rx.new }
{
    if words::truth(words[STORED]) {
        fields::put_at(words, RX, rx, vocabulary::EEP);
        words[STORED] = 0;
    }
}

// The rest of an unfinished packet in the transmit store is discarded; where its end is not there, later puts are too.
fn discard_rest(words: &mut Words, tx: &[u16]) -> u32
    ensures { (SmallEnough tx.now → Writes words.old (λ (l : Link). (rest_discarded tx.now l).link) words.new)
        × Reads words.old (λ (l : Link). narrow (rest_discarded tx.now l).discarded) result }
{
    if words::truth(words[SENT]) {
        let store = fields::store_at(words, TX);
        let found = store.find_end(tx);
        fields::set_store(words, TX, store.drop_found(tx, found));
        words[SENT] = 0;
        if !found.ended {
            words[DISCARDING] = 1;
        }
        words::narrow(found.count)
    } else {
        0
    }
}

#[tactic(auto, unfolding(crate::specs::Recovery::goes_down))]
fn go_down(words: &mut Words, rx: &mut [u16], tx: &[u16]) -> u32
    ensures { Settles words.old rx.old tx.now goes_down words.new result rx.new }
{
    clear(words);
    close(words, rx);
    discard_rest(words, tx)
}

// The move to another state: rare and large, so apart from `settle`, which is small and in every call.
fn move_to(next: LinkState, words: &mut Words, rx: &mut [u16], tx: &[u16]) -> u32
    ensures { (l : Link) → words.old ≡ link_words l → is_state next l.stage.state ≡ false →
        Settles words.old rx.old tx.now (moves_to next) words.new result rx.new }
{
    if next == LinkState::ErrorReset {
        return go_down(words, rx, tx);
    }
    moves::enter(words, next);
    0
}

// After an event's effect: the one move that fits, if any.
#[tactic(auto, using(crate::proofs::TableLaws::same_is_state), unfolding(crate::specs::Recovery::settles, crate::specs::Recovery::moves_to))]
pub(crate) fn settle(e: Event, words: &mut Words, rx: &mut [u16], tx: &[u16]) -> u32
    ensures { Settles words.old rx.old tx.now (settles e) words.new result rx.new }
{
    let next = moves::next_state(e, words);
    if next == fields::state_in(words) {
        0
    } else {
        move_to(next, words, rx, tx)
    }
}

// An empty receive store, but for an EEP behind a packet of which the host has taken a part.
fn empty_receive(words: &mut Words, rx: &mut [u16])
    ensures { (SmallEnough rx.old → Writes words.old (λ (l : Link). with_rx l (pick l.marks.taken (put_store (length rx.old) fresh_store EEP) fresh_store)) words.new)
        × Reads words.old (emptied_places rx.old) rx.new }
{
    fields::set_store(words, RX, Store::fresh());
    if words::truth(words[TAKEN]) {
        fields::put_at(words, RX, rx, vocabulary::EEP);
    }
}

// Reset: to ErrorReset from any state, and both stores emptied.
pub(crate) fn reset_all(words: &mut Words, rx: &mut [u16]) -> u32
    ensures { (SmallEnough rx.old → Writes words.old (λ (l : Link). (resets rx.old l).moved.link) words.new)
        × Reads words.old (λ (l : Link). narrow (resets rx.old l).moved.discarded) result
        × Reads words.old (λ (l : Link). (resets rx.old l).rx) rx.new }
{
    let transmit = fields::store_at(words, TX);
    clear(words);
    empty_receive(words, rx);
    fields::set_store(words, TX, Store::fresh());
    words[STORED] = 0;
    words[SENT] = 0;
    words[DISCARDING] = words[PUT];
    words::narrow(transmit.len)
}
