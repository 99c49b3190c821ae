// What the host does (01, Send, Going to ErrorReset by a move): put, take, offering a Time-Code, the controls.
#![tactic(auto, unfolding(crate::specs::LinkWords::link_words, store::specs::StoreWords::store_of, crate::specs::Hosts::puts, crate::specs::Hosts::puts_places))]

ghost use Rattle.std.specs.Prelude.{length};
ghost use Rattle.link.specs.Records.{Link};
ghost use Rattle.link.specs.Ends.{with_controls};
ghost use Rattle.link.specs.Hosts.{put_discarded, put_stored, puts, puts_places, takes, taken_n_char, offers};
ghost use Rattle.store.specs.Changes.{put_places};
ghost use Rattle.link.specs.LinkCalls.{controls_of};
ghost use Rattle.link.specs.InPlace.{Reads, Writes, SmallEnough};

use crate::fields;
use crate::fields::{AUTO, CODE, DISABLED, DISCARDING, OFFERED, PUT, RX, START, TAKEN, TX, Words};

fn put_discarded(words: &mut Words, n: u16)
    ensures { Writes words.old (λ (l : Link). (put_discarded l n).link) words.new }
{
    let goes_on = !vocabulary::is_end(n);
    fields::set_truth(words, PUT, goes_on);
    fields::set_truth(words, DISCARDING, goes_on);
}

fn put_stored(words: &mut Words, tx: &mut [u16], n: u16)
    ensures { (SmallEnough tx.old → Writes words.old (λ (l : Link). (put_stored (length tx.old) l n).link) words.new)
        × Reads words.old (λ (l : Link). put_places tx.old l.tx n) tx.new }
{
    fields::put_at(words, TX, tx, n);
    fields::set_truth(words, PUT, !vocabulary::is_end(n));
}

// One N-Char from the host; how many were discarded.
pub(crate) fn put_one(words: &mut Words, tx: &mut [u16], n: u16) -> u32
    ensures { (SmallEnough tx.old → Writes words.old (λ (l : Link). (puts (length tx.old) l n).link) words.new)
        × Reads words.old (λ (l : Link). (puts (length tx.old) l n).discarded) result
        × Reads words.old (λ (l : Link). puts_places tx.old l n) tx.new }
{
    if words::truth(words[DISCARDING]) {
        put_discarded(words, n);
        1
    } else {
        put_stored(words, tx, n);
        0
    }
}

// One N-Char to the host.
pub(crate) fn take_one(words: &mut Words, rx: &[u16]) -> u16
    ensures { (SmallEnough rx.now → Writes words.old (λ (l : Link). takes rx.now l (taken_n_char rx.now l)) words.new)
        × Reads words.old (taken_n_char rx.now) result }
{
    let n = fields::store_at(words, RX).look(rx);
    fields::drop_at(words, RX, rx);
    fields::set_truth(words, TAKEN, !vocabulary::is_end(n));
    n
}

pub(crate) fn offer_code(words: &mut Words, v: u8)
    ensures { Writes words.old (λ (l : Link). offers l v) words.new }
{
    words[OFFERED] = 1;
    words[CODE] = u32::from(v);
}

pub(crate) fn set_controls(words: &mut Words, disabled: u32, start: u32, auto: u32)
    ensures { Writes words.old (λ (l : Link). with_controls l (controls_of disabled start auto)) words.new }
{
    fields::set_truth(words, DISABLED, words::truth(disabled));
    fields::set_truth(words, START, words::truth(start));
    fields::set_truth(words, AUTO, words::truth(auto));
}
