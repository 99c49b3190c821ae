// Link ends and the time record: each export is the call of `neftolek` with its name, with its clauses.
ghost use Rattle.std.specs.Prelude.{◌≡◌};
ghost use Rattle.time.specs.Time.{fresh_time};
ghost use Rattle.link.specs.Ends.{fresh_link};
ghost use Rattle.link.specs.LinkWords.{link_words, time_words};
ghost use Rattle.link.specs.LinkCalls.{tick_left, reset_left, fault_left, controls_of, control_left, send_left};
ghost use Rattle.link.specs.LinkCalls.{receive_left, put_left, take_left, offer_left};

use link::fields::{TimeWords, Words};
use neftolek::link_calls;

#[unsafe(no_mangle)]
pub extern "C" fn neftolek_link_fresh(state: &mut Words)
    ensures { state.new ≡ link_words fresh_link }
{
    link_calls::neftolek_link_fresh(state);
}

#[unsafe(no_mangle)]
pub extern "C" fn neftolek_time_fresh(time: &mut TimeWords)
    ensures { time.new ≡ time_words fresh_time }
{
    link_calls::neftolek_time_fresh(time);
}

#[unsafe(no_mangle)]
pub extern "C" fn neftolek_link_tick(
    state: &mut Words,
    rx: &mut [u16],
    tx: &[u16],
    out: &mut [u32; 1],
) -> u32
    ensures { record { refusal = result; state = state.new; places = rx.new; out = out.new }
        ≡ tick_left state.old rx.old tx.now }
{
    link_calls::neftolek_link_tick(state, rx, tx, out)
}

#[unsafe(no_mangle)]
pub extern "C" fn neftolek_link_reset(
    state: &mut Words,
    rx: &mut [u16],
    tx: &[u16],
    out: &mut [u32; 1],
) -> u32
    ensures { record { refusal = result; state = state.new; places = rx.new; out = out.new }
        ≡ reset_left state.old rx.old tx.now }
{
    link_calls::neftolek_link_reset(state, rx, tx, out)
}

#[unsafe(no_mangle)]
pub extern "C" fn neftolek_link_fault(
    state: &mut Words,
    rx: &mut [u16],
    tx: &[u16],
    kind: u32,
    out: &mut [u32; 1],
) -> u32
    ensures { record { refusal = result; state = state.new; places = rx.new; out = out.new }
        ≡ fault_left state.old rx.old tx.now kind }
{
    link_calls::neftolek_link_fault(state, rx, tx, kind, out)
}

#[unsafe(no_mangle)]
pub extern "C" fn neftolek_link_control(
    state: &mut Words,
    rx: &mut [u16],
    tx: &[u16],
    disabled: u32,
    start: u32,
    auto: u32,
    out: &mut [u32; 1],
) -> u32
    ensures { record { refusal = result; state = state.new; places = rx.new; out = out.new }
        ≡ control_left state.old rx.old tx.now (controls_of disabled start auto) }
{
    link_calls::neftolek_link_control(state, rx, tx, disabled, start, auto, out)
}

#[unsafe(no_mangle)]
pub extern "C" fn neftolek_link_send(
    state: &mut Words,
    rx: &mut [u16],
    tx: &[u16],
    out: &mut [u32; 3],
) -> u32
    ensures { record { refusal = result; state = state.new; places = rx.new; out = out.new }
        ≡ send_left state.old rx.old tx.now }
{
    link_calls::neftolek_link_send(state, rx, tx, out)
}

#[unsafe(no_mangle)]
pub extern "C" fn neftolek_link_receive(
    state: &mut Words,
    rx: &mut [u16],
    tx: &[u16],
    time: &mut TimeWords,
    kind: u32,
    value: u32,
    out: &mut [u32; 2],
) -> u32
    ensures { record { refusal = result; state = state.new; rx = rx.new; time = time.new; out = out.new }
        ≡ receive_left state.old rx.old tx.now time.old kind value }
{
    link_calls::neftolek_link_receive(state, rx, tx, time, kind, value, out)
}

#[unsafe(no_mangle)]
pub extern "C" fn neftolek_link_put(
    state: &mut Words,
    tx: &mut [u16],
    nchar: u32,
    out: &mut [u32; 1],
) -> u32
    ensures { record { refusal = result; state = state.new; places = tx.new; out = out.new }
        ≡ put_left state.old tx.old nchar }
{
    link_calls::neftolek_link_put(state, tx, nchar, out)
}

#[unsafe(no_mangle)]
pub extern "C" fn neftolek_link_take(state: &mut Words, rx: &[u16], out: &mut [u32; 2]) -> u32
    ensures { record { refusal = result; state = state.new; out = out.new }
        ≡ take_left state.old rx.now }
{
    link_calls::neftolek_link_take(state, rx, out)
}

#[unsafe(no_mangle)]
pub extern "C" fn neftolek_link_offer(state: &mut Words, code: u8, out: &mut [u32; 1]) -> u32
    ensures { record { refusal = result; state = state.new; out = out.new }
        ≡ offer_left state.old code }
{
    link_calls::neftolek_link_offer(state, code, out)
}
