// What is still held through a port.
ghost use Rattle.std.specs.Prelude.{◌≡◌, ◌<◌};
ghost use Rattle.router_ports.specs.Ports.{mode_at};
ghost use Rattle.router_ports.specs.RouterWords.{router_of};
ghost use Rattle.router.specs.Held.{awaits, behind, sets_of, nothing_at_input, nothing_at_output, held_through};
ghost use Rattle.router.specs.HeldCalls.{through_port, held_words};

use router_ports::{Mode, PORTS, Words};

// How many words are answered to C.
pub const WORDS: usize = 11;

// What a port's input does and how many N-Chars wait there; which input holds its output and how many wait there; which
// inputs wait for it, and which have N-Chars that no round has moved, bit i for input i; and whether nothing is held
// through it.
#[derive(Clone, Copy, Debug, PartialEq, Eq)]
pub struct Held {
    pub mode: Mode,
    pub unmoved: usize,
    pub owner: Option<usize>,
    pub untaken: usize,
    pub wanted: u16,
    pub unread: u16,
    pub nothing: bool,
}

impl From<Held> for [u32; WORDS] {
    ghost from_gives = { λ held row. row ≡ held_words (through_port held) };

    #[tactic(auto, unfolding(crate::specs::HeldCalls::held_words))]
    fn from(held: Held) -> [u32; WORDS] {
        let wanted = held.mode.wanted();
        [
            u32::from(held.mode.number()),
            u32::from(wanted.ports),
            u32::from(wanted.high),
            words::narrow(held.mode.output()),
            words::narrow(held.unmoved),
            u32::from(router_ports::owner_number(held.owner)),
            words::narrow(router_ports::owner_input(held.owner)),
            words::narrow(held.untaken),
            u32::from(held.wanted),
            u32::from(held.unread),
            u32::from(held.nothing),
        ]
    }
}

// Sets of inputs, bit i for input i: those that wait for a port's output, and those that have N-Chars waiting.
#[derive(Clone, Copy)]
struct Sets {
    wanted: u16,
    unread: u16,
}

fn is_awaited(words: &Words, i: usize, port: usize) -> bool
    ensures { result ≡ awaits port (mode_at (router_of words.now) i) }
{
    matches!(router_ports::mode_at(words, i), Mode::Waiting(wanted) if wanted.wants(port))
}

fn one_more(set: u16, member: bool) -> u16
    requires { set < 2048 }
    ensures { result ≡ behind set member }
{
    2 * set + u16::from(member)
}

// From the last input down, each becomes the lowest bit of both sets.
fn inputs_that(words: &Words, port: usize) -> Sets
    ensures { result ≡ sets_of (router_of words.now) port }
{
    let mut wanted = 0;
    let mut unread = 0;
    for i in (0..PORTS).rev() {
        wanted = one_more(wanted, is_awaited(words, i, port));
        unread = one_more(unread, !router_ports::empty_at(words, i));
    }
    Sets { wanted, unread }
}

fn nothing_at_input(mode: Mode, unmoved: usize) -> bool
    ensures { result ≡ nothing_at_input mode unmoved }
{
    matches!(mode, Mode::Idle) && unmoved == 0
}

fn nothing_at_output(owner: Option<usize>, untaken: usize, wanted: u16) -> bool
    ensures { result ≡ nothing_at_output owner untaken wanted }
{
    owner.is_none() && untaken == 0 && wanted == 0
}

// What is held through a port of the router.
#[tactic(auto, unfolding(crate::specs::Held::held_through, crate::specs::Held::nothing_held, crate::specs::Held::sets_of))]
pub(crate) fn through(words: &Words, port: usize) -> Held
    requires { port < 11 }
    ensures { through_port result ≡ held_through (router_of words.now) port }
{
    let mode = router_ports::mode_at(words, port);
    let unmoved = router_ports::store_at(words, port).len;
    let owner = router_ports::output_at(words, port).owner;
    let untaken = router_ports::store_at(words, PORTS + port).len;
    let Sets { wanted, unread } = inputs_that(words, port);
    let nothing = nothing_at_input(mode, unmoved) && nothing_at_output(owner, untaken, wanted);
    Held {
        mode,
        unmoved,
        owner,
        untaken,
        wanted,
        unread,
        nothing,
    }
}
