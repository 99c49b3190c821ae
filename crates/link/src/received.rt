// What a token, a fault or a tick does before the move (01, The link end, Credit, Time).
#![tactic(auto, unfolding(crate::specs::LinkWords::link_words, store::specs::StoreWords::store_of, crate::specs::Received::fct_effect, crate::specs::Received::n_char_effect, crate::specs::Received::time_code_effect, crate::specs::Received::token_effect, crate::specs::Received::token_places, crate::specs::Received::counted))]

ghost use Rattle.std.specs.Prelude.{◌≡◌, ◌||◌, false, not, length, ◌<◌};
ghost use Rattle.vocabulary.specs.Choice.{pick};
ghost use Rattle.words.specs.Words.{word_at};
ghost use Rattle.store.specs.Changes.{put_places};
ghost use Rattle.link.specs.declared.LinkState.{LinkState};
ghost use Rattle.link.specs.Records.{Link};
ghost use Rattle.link.specs.Moves.{is_state};
ghost use Rattle.link.specs.Received.{got_null, fct_effect, stored_link, stores_n_char, n_char_effect, time_code_effect};
ghost use Rattle.link.specs.Received.{ignores_all, ignores_token, heard_effect, token_effect, heard_places};
ghost use Rattle.link.specs.Received.{token_places, ignores_fault, fault_event, counted};
ghost use Rattle.link.specs.LinkWords.{TIMER, link_words};
ghost use Rattle.link.specs.InPlace.{Reads, Writes, WritesGood, SmallEnough, Good, heard_of, Hears};

use crate::fields::{GOT_NULL, RX, STORED, TIMER, Words};
use crate::{Event, FaultKind, Heard, Held, LinkState, fields, moves};
use time::Time;
use vocabulary::Token;

fn got_null(words: &mut Words)
    ensures { Writes words.old got_null words.new }
{
    fields::set_truth(words, GOT_NULL, true);
}

fn takes_fct(words: &Words) -> bool
    ensures { Reads words.now (λ (l : Link). is_state l.stage.state LinkState.Connecting || is_state l.stage.state LinkState.Run) result }
{
    matches!(
        fields::state_in(words),
        LinkState::Connecting | LinkState::Run
    )
}

fn got_fct(words: &mut Words) -> Event
    ensures { (l : Link) (time : Time) → words.old ≡ link_words l → Good l →
        (record { event = result; time = time; tick = false } ≡ heard_of (fct_effect l time))
        × (words.new ≡ link_words (fct_effect l time).link) }
{
    if takes_fct(words) {
        let held = fields::held_in(words);
        if held.passes_56() {
            return Event::CreditError;
        }
        fields::set_held(words, Held(held.0 + 8));
    }
    Event::GotFct
}

fn store_n_char(words: &mut Words, rx: &mut [u16], n: u16)
    ensures { (SmallEnough rx.old → WritesGood words.old (λ (l : Link). stored_link (length rx.old) l n) words.new)
        × Reads words.old (λ (l : Link). put_places rx.old l.rx n) rx.new }
{
    let given = fields::given_in(words);
    fields::set_given(words, given.one_less());
    fields::put_at(words, RX, rx, n);
    fields::set_truth(words, STORED, !vocabulary::is_end(n));
}

fn got_n_char(words: &mut Words, rx: &mut [u16], n: u16) -> Event
    ensures { SmallEnough rx.old → (l : Link) (time : Time) → words.old ≡ link_words l → Good l →
        (record { event = result; time = time; tick = false } ≡ heard_of (n_char_effect (length rx.old) l time n))
        × (words.new ≡ link_words (n_char_effect (length rx.old) l time n).link)
        × (rx.new ≡ pick (stores_n_char l) (put_places rx.old l.rx n) rx.old) }
{
    if fields::is_in(words, LinkState::Run) {
        if fields::given_in(words).0 == 0 {
            return Event::CreditError;
        }
        store_n_char(words, rx, n);
    }
    Event::GotNChar
}

fn got_time_code(words: &Words, time: Time, v: u8) -> Heard
    ensures { Reads words.now (λ (l : Link). heard_of (time_code_effect l time v)) result }
{
    let event = Event::GotTimeCode;
    if fields::is_in(words, LinkState::Run) {
        let next = time.after(v);
        Heard {
            event,
            time: next,
            tick: next.ticked,
        }
    } else {
        Heard {
            event,
            time,
            tick: false,
        }
    }
}

fn ignores_all(words: &Words) -> bool
    ensures { Reads words.now ignores_all result }
{
    fields::is_in(words, LinkState::ErrorReset)
}

// Before gotNULL, all but NULL and a disconnect.
fn ignores_most(words: &Words) -> bool
    ensures { Reads words.now (λ (l : Link). ignores_all l || not l.stage.gotnull) result }
{
    ignores_all(words) || !words::truth(words[GOT_NULL])
}

fn ignores_token(words: &Words, t: Token) -> bool
    ensures { Reads words.now (λ (l : Link). ignores_token l t) result }
{
    match t {
        Token::Null => ignores_all(words),
        Token::Fct | Token::NChar(_) | Token::TimeCode(_) => ignores_most(words),
    }
}

#[tactic(auto, unfolding(crate::specs::Received::time_code_effect))]
fn hear(words: &mut Words, rx: &mut [u16], time: Time, t: Token) -> Heard
    ensures { Hears words.old rx.old (λ (l : Link). heard_effect (length rx.old) l time t)
        (λ (l : Link). heard_places rx.old l t) result words.new rx.new }
{
    let event = match t {
        Token::Null => {
            got_null(words);
            Event::Quiet
        }
        Token::Fct => got_fct(words),
        Token::NChar(n) => got_n_char(words, rx, n),
        Token::TimeCode(v) => return got_time_code(words, time, v),
    };
    Heard {
        event,
        time,
        tick: false,
    }
}

// A received token, before the move.
pub(crate) fn token(words: &mut Words, rx: &mut [u16], time: Time, t: Token) -> Heard
    ensures { Hears words.old rx.old (λ (l : Link). token_effect (length rx.old) l time t)
        (λ (l : Link). token_places rx.old l t) result words.new rx.new }
{
    if ignores_token(words, t) {
        Heard {
            event: Event::Quiet,
            time,
            tick: false,
        }
    } else {
        hear(words, rx, time, t)
    }
}

fn ignores_fault(words: &Words, f: FaultKind) -> bool
    ensures { Reads words.now (λ (l : Link). ignores_fault l f) result }
{
    match f {
        FaultKind::ParityFault | FaultKind::EscapeFault => ignores_most(words),
        FaultKind::DisconnectFault => ignores_all(words),
    }
}

pub(crate) fn fault_event(words: &Words, f: FaultKind) -> Event
    ensures { Reads words.now (λ (l : Link). fault_event l f) result }
{
    if ignores_fault(words, f) {
        Event::Quiet
    } else {
        Event::Fault
    }
}

// A tick, before the move: the timer counts.
pub(crate) fn count(words: &mut Words)
    requires { word_at words.old TIMER < 255 }
    ensures { Writes words.old counted words.new }
{
    if moves::counts_ticks(fields::state_in(words)) {
        words[TIMER] += 1;
    }
}
