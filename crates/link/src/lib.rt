// A link end (01, The link end): its state is an array of words that the caller owns, and the places of its two stores are
// lent. Every call works on the words in place.
#![tactic(auto)]

ghost use Rattle.std.specs.Prelude.{◌≡◌, Ok, Err};
ghost use Rattle.vocabulary.specs.Choice.{pick};
ghost use Rattle.vocabulary.specs.Refusals.{CHAR};
ghost use Rattle.link.specs.Moves.{state_number};
ghost use Rattle.link.specs.LinkCalls.{no_fault, fault_of};

use time::Time;
use vocabulary::Refusal;

pub mod calls;
mod counters;
pub mod fields;
mod hosts;
mod moves;
mod received;
mod recovery;
mod refusals;
mod send;
mod tested;

#[derive(Clone, Copy, Debug, PartialEq, Eq)]
pub enum LinkState {
    ErrorReset,
    ErrorWait,
    Ready,
    Started,
    Connecting,
    Run,
}

// A state's number, from 0 for ErrorReset to 5 for Run.
impl From<LinkState> for u32 {
    ghost from_gives = { λ state n. n ≡ state_number state };

    fn from(state: LinkState) -> u32 {
        state as u32
    }
}

// What happened, as the table of moves sees it.
#[derive(Clone, Copy, Debug, PartialEq, Eq)]
pub enum Event {
    Quiet,
    Fault,
    GotFct,
    GotNChar,
    GotTimeCode,
    CreditError,
}

// The link does not stand on the decoder, so it has three kinds of its own under the same numbers.
#[derive(Clone, Copy, Debug, PartialEq, Eq)]
pub enum FaultKind {
    ParityFault,
    EscapeFault,
    DisconnectFault,
}

// A fault by the number of the decoder's report; any other number is CHAR.
impl TryFrom<u32> for FaultKind {
    type Error = Refusal;

    ghost try_from_gives = { λ kind result. result ≡ pick (no_fault kind) (Err CHAR) (Ok (fault_of kind)) };

    fn try_from(kind: u32) -> Result<FaultKind, Refusal> {
        match kind {
            5 => Ok(FaultKind::ParityFault),
            6 => Ok(FaultKind::EscapeFault),
            7 => Ok(FaultKind::DisconnectFault),
            _ => Err(Refusal::Char),
        }
    }
}

// The two counters are types of their own, so that neither can be passed for the other. What they share is one line each: a
// trait over both would say it in more.
#[derive(Clone, Copy, Debug, PartialEq, Eq)]
pub struct Held(pub u8);

#[derive(Clone, Copy, Debug, PartialEq, Eq)]
pub struct GivenOut(pub u8);

// What a received token comes to, beside its effect on the words: the event that the table sees, the time record after it,
// and whether it gives a tick out.
#[derive(Clone, Copy, Debug, PartialEq, Eq)]
pub struct Heard {
    pub event: Event,
    pub time: Time,
    pub tick: bool,
}
