// The calls on a link end. Each takes any words, places and numbers: what is bad is refused, and then nothing changes.
// Words and places are parameters of their own and no struct, and controls, kinds and values are numbers: so C lends and hands them
// over (`neftolek_link_tick`), and a call is lent only the places that it needs, and to change only those that it changes.
ghost use Rattle.std.specs.Prelude.{◌≡◌, ◌<◌, [], ◌∷◌};
ghost use Rattle.vocabulary.specs.Refusals.{refusal_in, answer_in};
ghost use Rattle.words.specs.Words.{word_at};
ghost use Rattle.time.specs.Time.{fresh_time};
ghost use Rattle.link.specs.Ends.{fresh_link};
ghost use Rattle.link.specs.LinkWords.{link_words, time_words, time_of};
ghost use Rattle.link.specs.LinkCalls.{tick_left, reset_left, fault_left, controls_of, control_left, send_left};
ghost use Rattle.link.specs.LinkCalls.{receive_left, put_left, take_left, offer_left};
ghost use Rattle.link.specs.Answers.{sent_words, nothing_sent, received_words, nothing_received};

use crate::fields::{TIME_WORDS, TimeWords, WORDS, Words};
use crate::{Event, FaultKind, hosts, received, recovery, refusals, send, tested};
use time::Time;
use vocabulary::{Refusal, Token, refuse};

// What a send comes to: how many of the host's N-Chars were discarded, and the token that is due.
#[derive(Clone, Copy, Debug, PartialEq, Eq)]
pub struct Sent {
    pub discarded: u32,
    pub token: Option<Token>,
}

// A token by its number and value, zeros for none.
impl From<Sent> for [u32; 3] {
    ghost from_gives = { λ sent words. words ≡ sent_words sent };

    fn from(sent: Sent) -> [u32; 3] {
        let kind = sent.token.map_or(0, vocabulary::kind);
        let value = sent.token.map_or(0, vocabulary::value);
        [sent.discarded, u32::from(kind), u32::from(value)]
    }
}

// What a received token comes to: how many of the host's N-Chars were discarded, and whether there is a tick out.
#[derive(Clone, Copy, Debug, PartialEq, Eq)]
pub struct Received {
    pub discarded: u32,
    pub tick: bool,
}

impl From<Received> for [u32; 2] {
    ghost from_gives = { λ received words. words ≡ received_words received };

    fn from(received: Received) -> [u32; 2] {
        [received.discarded, u32::from(received.tick)]
    }
}

// A link end as it is made: in ErrorReset, controls off, stores empty.
#[tactic(auto, unfolding(crate::specs::LinkWords::link_words, crate::specs::Ends::fresh_link, store::specs::Changes::fresh_store))]
pub fn fresh(words: &mut Words)
    ensures { words.new ≡ link_words fresh_link }
{
    *words = [0; WORDS];
}

#[tactic(auto, unfolding(time::specs::Time::fresh_time))]
pub fn fresh_time(time: &mut TimeWords)
    ensures { time.new ≡ time_words fresh_time }
{
    *time = [0; TIME_WORDS];
}

// One tick of the clock: how many of the host's N-Chars were discarded.
pub fn tick(words: &mut Words, rx: &mut [u16], tx: &[u16]) -> Result<u32, Refusal>
    ensures { record { refusal = refusal_in result; state = words.new; places = rx.new; out = answer_in 0 result ∷ [] }
        ≡ tick_left words.old rx.old tx.now }
{
    tested::both(words, rx.len(), tx.len())?;
    received::count(words);
    Ok(recovery::settle(Event::Quiet, words, rx, tx))
}

// To ErrorReset from any state, with both stores emptied.
pub fn reset(words: &mut Words, rx: &mut [u16], tx: &[u16]) -> Result<u32, Refusal>
    ensures { record { refusal = refusal_in result; state = words.new; places = rx.new; out = answer_in 0 result ∷ [] }
        ≡ reset_left words.old rx.old tx.now }
{
    tested::both(words, rx.len(), tx.len())?;
    Ok(recovery::reset_all(words, rx))
}

// A fault by the number of the decoder's report: `fault(&mut words, &mut rx, &tx, 5)` is a parity error.
pub fn fault(words: &mut Words, rx: &mut [u16], tx: &[u16], kind: u32) -> Result<u32, Refusal>
    ensures { record { refusal = refusal_in result; state = words.new; places = rx.new; out = answer_in 0 result ∷ [] }
        ≡ fault_left words.old rx.old tx.now kind }
{
    tested::both(words, rx.len(), tx.len())?;
    let event = received::fault_event(words, FaultKind::try_from(kind)?);
    Ok(recovery::settle(event, words, rx, tx))
}

// The three controls, all at once; any number but 0 is on.
pub fn control(
    words: &mut Words,
    rx: &mut [u16],
    tx: &[u16],
    disabled: u32,
    start: u32,
    auto: u32,
) -> Result<u32, Refusal>
    ensures { record { refusal = refusal_in result; state = words.new; places = rx.new; out = answer_in 0 result ∷ [] }
        ≡ control_left words.old rx.old tx.now (controls_of disabled start auto) }
{
    tested::both(words, rx.len(), tx.len())?;
    hosts::set_controls(words, disabled, start, auto);
    Ok(recovery::settle(Event::Quiet, words, rx, tx))
}

// The token that is due.
pub fn send(words: &mut Words, rx: &mut [u16], tx: &[u16]) -> Result<Sent, Refusal>
    ensures { record {
      refusal = refusal_in result;
      state = words.new;
      places = rx.new;
      out = sent_words (answer_in nothing_sent result);
    }
        ≡ send_left words.old rx.old tx.now }
{
    tested::both(words, rx.len(), tx.len())?;
    let token = send::choose(words, rx.len(), tx);
    send::book(words, tx, token);
    let discarded = recovery::settle(Event::Quiet, words, rx, tx);
    Ok(Sent { discarded, token })
}

// What a time record's words mean is said by this crate's definitions, so the two conversions are its own functions.
#[tactic(auto, using(words::proofs::NumberLaws::byte_back), unfolding(crate::specs::LinkWords::time_of))]
fn time_in(time: &TimeWords) -> Time
    ensures { word_at time.now 0 < 256 → result ≡ time_of time.now }
{
    Time {
        count: words::byte(time[0]),
        ticked: words::truth(time[1]),
    }
}

fn set_time(time: &mut TimeWords, t: Time)
    ensures { time.new ≡ time_words t }
{
    *time = [u32::from(t.count), u32::from(t.ticked)];
}

// The token with this number and value came over the wire.
pub fn receive(
    words: &mut Words,
    rx: &mut [u16],
    tx: &[u16],
    time: &mut TimeWords,
    kind: u32,
    value: u32,
) -> Result<Received, Refusal>
    ensures { record {
      refusal = refusal_in result;
      state = words.new;
      rx = rx.new;
      time = time.new;
      out = received_words (answer_in nothing_received result);
    }
        ≡ receive_left words.old rx.old tx.now time.old kind value }
{
    refuse(refusals::bad_time(time), Refusal::State)?;
    tested::both(words, rx.len(), tx.len())?;
    let token = words::named_token(kind, value)?;
    let heard = received::token(words, rx, time_in(time), token);
    set_time(time, heard.time);
    let discarded = recovery::settle(heard.event, words, rx, tx);
    Ok(Received {
        discarded,
        tick: heard.tick,
    })
}

// The host puts an N-Char to be sent: how many were discarded.
pub fn put(words: &mut Words, tx: &mut [u16], nchar: u32) -> Result<u32, Refusal>
    ensures { record { refusal = refusal_in result; state = words.new; places = tx.new; out = answer_in 0 result ∷ [] }
        ≡ put_left words.old tx.old nchar }
{
    let n = words::fitted(nchar);
    tested::put(words, tx.len(), n)?;
    Ok(hosts::put_one(words, tx, n))
}

// The host takes an N-Char that was received.
pub fn take(words: &mut Words, rx: &[u16]) -> Result<u16, Refusal>
    ensures { record { refusal = refusal_in result; state = words.new; out = 0 ∷ answer_in 0 result ∷ [] }
        ≡ take_left words.old rx.now }
{
    tested::take(words, rx.len())?;
    Ok(hosts::take_one(words, rx))
}

// The host offers a Time-Code, which waits until the next send in Run.
pub fn offer(words: &mut Words, code: u8) -> Result<(), Refusal>
    ensures { record { refusal = refusal_in result; state = words.new; out = 0 ∷ [] }
        ≡ offer_left words.old code }
{
    tested::offer(words)?;
    hosts::offer_code(words, code);
    Ok(())
}
