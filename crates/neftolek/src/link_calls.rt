// Link ends and the time record: each function is the call of `link` with its name. A refused call leaves the state's words,
// the stores and the time record, and answers zeros in `out`.
ghost use Rattle.std.specs.Prelude.{◌≡◌};
ghost use Rattle.time.specs.Time.{fresh_time};
ghost use Rattle.link.specs.Ends.{fresh_link};
ghost use Rattle.link.specs.LinkWords.{link_words, time_words};
ghost use Rattle.link.specs.LinkCalls.{tick_left, reset_left, fault_left, controls_of, control_left, send_left};
ghost use Rattle.link.specs.LinkCalls.{receive_left, put_left, take_left, offer_left};

use crate::answers;
use link::calls;
use link::fields::{TimeWords, Words};

// A link end as it is made: in ErrorReset, controls off, stores empty.
pub fn neftolek_link_fresh(state: &mut Words)
    ensures { state.new ≡ link_words fresh_link }
{
    calls::fresh(state);
}

pub fn neftolek_time_fresh(time: &mut TimeWords)
    ensures { time.new ≡ time_words fresh_time }
{
    calls::fresh_time(time);
}

// One tick of the clock: `out` gets how many of the host's N-Chars were discarded.
pub fn neftolek_link_tick(state: &mut Words, rx: &mut [u16], tx: &[u16], out: &mut [u32; 1]) -> u32
    ensures { record { refusal = result; state = state.new; places = rx.new; out = out.new }
        ≡ tick_left state.old rx.old tx.now }
{
    words::answer(calls::tick(state, rx, tx).map(answers::one_word), out)
}

// To ErrorReset from any state, with both stores emptied.
pub fn neftolek_link_reset(state: &mut Words, rx: &mut [u16], tx: &[u16], out: &mut [u32; 1]) -> u32
    ensures { record { refusal = result; state = state.new; places = rx.new; out = out.new }
        ≡ reset_left state.old rx.old tx.now }
{
    words::answer(calls::reset(state, rx, tx).map(answers::one_word), out)
}

// A fault by the number of the decoder's report: `neftolek_link_fault(state, rx, n, tx, m, 5, out)` is a parity error.
pub fn neftolek_link_fault(
    state: &mut Words,
    rx: &mut [u16],
    tx: &[u16],
    kind: u32,
    out: &mut [u32; 1],
) -> u32
    ensures { record { refusal = result; state = state.new; places = rx.new; out = out.new }
        ≡ fault_left state.old rx.old tx.now kind }
{
    words::answer(
        calls::fault(state, rx, tx, kind).map(answers::one_word),
        out,
    )
}

// The three controls, all at once; any number but 0 is on.
pub fn neftolek_link_control(
    state: &mut Words,
    rx: &mut [u16],
    tx: &[u16],
    disabled: u32,
    start: u32,
    auto: u32,
    out: &mut [u32; 1],
) -> u32
    ensures { record { refusal = result; state = state.new; places = rx.new; out = out.new }
        ≡ control_left state.old rx.old tx.now (controls_of disabled start auto) }
{
    let answered = calls::control(state, rx, tx, disabled, start, auto);
    words::answer(answered.map(answers::one_word), out)
}

// The token that is due: `out` gets the discarded, the token's number, 0 for none, and its value.
pub fn neftolek_link_send(state: &mut Words, rx: &mut [u16], tx: &[u16], out: &mut [u32; 3]) -> u32
    ensures { record { refusal = result; state = state.new; places = rx.new; out = out.new }
        ≡ send_left state.old rx.old tx.now }
{
    words::answer(calls::send(state, rx, tx).map(<[u32; 3]>::from), out)
}

// The token with this number and value came over the wire: `out` gets the discarded, and 1 for a tick out.
pub fn neftolek_link_receive(
    state: &mut Words,
    rx: &mut [u16],
    tx: &[u16],
    time: &mut TimeWords,
    kind: u32,
    value: u32,
    out: &mut [u32; 2],
) -> u32
    ensures { record { refusal = result; state = state.new; rx = rx.new; time = time.new; out = out.new }
        ≡ receive_left state.old rx.old tx.now time.old kind value }
{
    words::answer(
        calls::receive(state, rx, tx, time, kind, value).map(<[u32; 2]>::from),
        out,
    )
}

// The host puts an N-Char to be sent: `out` gets how many were discarded.
pub fn neftolek_link_put(state: &mut Words, tx: &mut [u16], nchar: u32, out: &mut [u32; 1]) -> u32
    ensures { record { refusal = result; state = state.new; places = tx.new; out = out.new }
        ≡ put_left state.old tx.old nchar }
{
    words::answer(calls::put(state, tx, nchar).map(answers::one_word), out)
}

// The host takes an N-Char that was received: `out` gets the discarded, always 0, and the N-Char.
pub fn neftolek_link_take(state: &mut Words, rx: &[u16], out: &mut [u32; 2]) -> u32
    ensures { record { refusal = result; state = state.new; out = out.new }
        ≡ take_left state.old rx.now }
{
    words::answer(
        calls::take(state, rx).map(answers::with_none_discarded),
        out,
    )
}

// The host offers a Time-Code, which waits until the next send in Run: `out` gets the discarded, always 0.
pub fn neftolek_link_offer(state: &mut Words, code: u8, out: &mut [u32; 1]) -> u32
    ensures { record { refusal = result; state = state.new; out = out.new }
        ≡ offer_left state.old code }
{
    words::answer(calls::offer(state, code).and(Ok([0])), out)
}
