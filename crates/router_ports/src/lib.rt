// The router's eleven ports (01, The router) in the words that keep them: what is kept of each, and their 22 stores
// in one lent area.
#![tactic(auto)]

ghost use Rattle.std.specs.Prelude.{◌≡◌, ◌&&◌, ◌||◌, ltb, length, ℕ, ◌+◌, ◌*◌, ◌/◌, ◌<◌, ◌≤◌};
ghost use Rattle.std.proofs.lemmas.List.Edits.{sets};
ghost use Rattle.vocabulary.specs.Choice.{pick};
ghost use Rattle.words.specs.Words.{word_at};
ghost use Rattle.store.specs.Ring.{empty, bad_store};
ghost use Rattle.store.specs.Changes.{front_of, without_first, put_store};
ghost use Rattle.router_ports.specs.Ports.{wants, fresh_router, mode_at, output_at, store_at};
ghost use Rattle.router_ports.specs.Numbers.{mode_number, mode_wanted, mode_output, owner_number, owner_input};
ghost use Rattle.router_ports.specs.Numbers.{is_idle, is_waiting};
ghost use Rattle.router_ports.specs.Places.{machine, size_in, bad_area, places_at, put_at, full_at, front_at};
ghost use Rattle.router_ports.specs.Each.{any};
ghost use Rattle.router_ports.specs.RouterWords.{row_in, mode_words, output_words, router_words, mode_of, owner_of, router_of};
ghost use Rattle.router_ports.specs.RouterWords.{with_mode_in, with_output_in, with_store_in, without_front_in, with_behind_in};
ghost use Rattle.router_ports.specs.Refusals.{is_owner, is_routed};
ghost use Rattle.router_ports.specs.StateWords.{bad_mode, bad_owner, bad_port_in, bad_state};

use std::ops::Range;
use store::Store;

pub const PORTS: usize = 11;

pub const LAST_PORT: usize = PORTS - 1;

// Stores 0 to 10 are those of the inputs, 11 to 21 those of the outputs.
pub const STORES: usize = 2 * PORTS;

// The set of all ports, bit p for port p.
const ALL_PORTS: u32 = 2047;

// An output's last granted input at the start.
const NONE_GRANTED: usize = 10;

// A router in words: for each input its mode, a value and high priority; for each output its owner, the input that
// holds it and the last granted input; for each store its front and its length.
const ROW_WORDS: usize = 3;

const STORE_WORDS: usize = 2;

const OUTPUTS_AT: usize = PORTS * ROW_WORDS;

const STORES_AT: usize = OUTPUTS_AT + PORTS * ROW_WORDS;

pub const WORDS: usize = STORES_AT + STORES * STORE_WORDS;

pub type Words = [u32; WORDS];

// Where the words of the inputs, or those of the outputs, begin: a row of three for each port.
#[derive(Clone, Copy)]
struct Rows {
    from: usize,
    ghost within: { from + 33 ≤ 110 },
}

const INPUT_ROWS: Rows = Rows { from: 0 };

const OUTPUT_ROWS: Rows = Rows { from: OUTPUTS_AT };

// Word by word: tried with `try_into` and `copy_from_slice` on a slice of the words, and changes of a port took four times as long.
impl Rows {
    // The words of a row; none past the last.
    #[inline(always)]
    fn read(self, words: &Words, k: usize) -> Option<[u32; 3]>
        ensures { result ≡ row_in self.from words.now k }
    {
        if PORTS <= k {
            return None;
        }
        let at = self.from + ROW_WORDS * k;
        Some([words[at], words[at + 1], words[at + 2]])
    }

    #[tactic(auto, using(crate::proofs::RowLaws::row_written))]
    #[inline(always)]
    fn write(self, words: &mut Words, k: usize, row: [u32; 3])
        ensures { words.new ≡ pick (ltb k 11) (sets words.old (self.from + 3 * k) row) words.old }
    {
        if k < PORTS {
            let at = self.from + ROW_WORDS * k;
            words[at] = row[0];
            words[at + 1] = row[1];
            words[at + 2] = row[2];
        }
    }
}

// The ports that an input waits for, bit p for port p, and at which priority.
#[derive(Clone, Copy, Debug, Default, PartialEq, Eq)]
pub struct Wanted {
    pub ports: u16,
    pub high: bool,
}

impl Wanted {
    // Whether the port is in the set: those past the set's bits are not.
    #[tactic(auto, using(crate::proofs::WantedLaws::none_past))]
    #[inline(always)]
    pub fn wants(self, port: usize) -> bool
        ensures { result ≡ wants self.ports port }
    {
        port < 16 && (self.ports >> port) % 2 == 1
    }
}

// What an input does: nothing, wait, send to an output, or discard a packet through its end.
#[derive(Clone, Copy, Debug, PartialEq, Eq)]
pub enum Mode {
    Idle,
    Waiting(Wanted),
    Routed(usize),
    Spilling,
}

impl Mode {
    // What an input does, by the number that C reads: 0 idle, 1 waiting, 2 routed, 3 spilling. No `From`, since it leaves out
    // what the mode carries.
    pub fn number(self) -> u8
        ensures { result ≡ mode_number self }
    {
        match self {
            Mode::Idle => 0,
            Mode::Waiting(_) => 1,
            Mode::Routed(_) => 2,
            Mode::Spilling => 3,
        }
    }

    // What a waiting input wants; zero for any other.
    pub fn wanted(self) -> Wanted
        ensures { result ≡ mode_wanted self }
    {
        match self {
            Mode::Waiting(wanted) => wanted,
            _ => Wanted::default(),
        }
    }

    // The output of a routed input; 0 for any other.
    pub fn output(self) -> usize
        ensures { result ≡ mode_output self }
    {
        match self {
            Mode::Routed(output) => output,
            _ => 0,
        }
    }
}

// A mode as its words, and the mode that three words mean.
impl From<Mode> for [u32; 3] {
    ghost from_gives = { λ mode words. words ≡ mode_words mode };

    #[inline]
    fn from(mode: Mode) -> [u32; 3] {
        match mode {
            Mode::Idle => [0, 0, 0],
            Mode::Waiting(wanted) => [1, u32::from(wanted.ports), u32::from(wanted.high)],
            Mode::Routed(output) => [2, words::narrow(output), 0],
            Mode::Spilling => [3, 0, 0],
        }
    }
}

impl From<[u32; 3]> for Mode {
    ghost from_gives = { λ words mode. mode ≡ mode_of (word_at words 0) (word_at words 1) (word_at words 2) };

    #[inline]
    #[tactic(auto, unfolding(crate::specs::RouterWords::mode_of, crate::specs::RouterWords::wanted_of))]
    fn from([number, value, high]: [u32; 3]) -> Mode {
        match number {
            1 => Mode::Waiting(Wanted {
                ports: (value % 65536) as u16,
                high: words::truth(high),
            }),
            2 => Mode::Routed(value as usize),
            3 => Mode::Spilling,
            _ => Mode::Idle,
        }
    }
}

// The input that an output is held by, and the last that it was granted to.
#[derive(Clone, Copy, Debug, Default, PartialEq, Eq)]
pub struct Output {
    pub owner: Option<usize>,
    pub last: usize,
}

// An output as its words, and the output that three words mean.
impl From<Output> for [u32; 3] {
    ghost from_gives = { λ output words. words ≡ output_words output.owner output.last };

    #[inline]
    fn from(output: Output) -> [u32; 3] {
        let granted = words::narrow(output.last);
        match output.owner {
            None => [0, 0, granted],
            Some(input) => [1, words::narrow(input), granted],
        }
    }
}

impl From<[u32; 3]> for Output {
    ghost from_gives = { λ words output. output ≡ record { owner = owner_of (word_at words 0) (word_at words 1); last = word_at words 2 } };

    #[inline]
    fn from([number, input, last]: [u32; 3]) -> Output {
        Output {
            owner: if number == 1 {
                Some(input as usize)
            } else {
                None
            },
            last: last as usize,
        }
    }
}

// The owner of an output, by the number that C reads: 0 where the output is free, 1 where an input holds it. No `From`, since it
// leaves out the input.
pub fn owner_number(owner: Option<usize>) -> u8
    ensures { result ≡ owner_number owner }
{
    u8::from(owner.is_some())
}

// The input that holds an output; 0 where it is free.
pub fn owner_input(owner: Option<usize>) -> usize
    ensures { result ≡ owner_input owner }
{
    owner.unwrap_or(0)
}

// Idle inputs, free outputs, empty stores.
pub fn fresh(words: &mut Words)
    ensures { words.new ≡ router_words fresh_router }
{
    *words = [0; WORDS];
    for o in 0..PORTS {
        set_output(
            words,
            o,
            Output {
                owner: None,
                last: NONE_GRANTED,
            },
        );
    }
}

// The router in place: what is kept of one port or store is read from its words and written to them.
#[tactic(auto, using(crate::proofs::RowLaws::mode_row))]
pub fn mode_at(words: &Words, i: usize) -> Mode
    ensures { result ≡ mode_at (router_of words.now) i }
{
    match INPUT_ROWS.read(words, i) {
        Some(row) => Mode::from(row),
        None => Mode::Idle,
    }
}

pub fn is_idle(words: &Words, i: usize) -> bool
    ensures { result ≡ is_idle (mode_at (router_of words.now) i) }
{
    matches!(mode_at(words, i), Mode::Idle)
}

pub fn is_waiting(words: &Words, i: usize) -> bool
    ensures { result ≡ is_waiting (mode_at (router_of words.now) i) }
{
    matches!(mode_at(words, i), Mode::Waiting(_))
}

#[tactic(auto, using(crate::proofs::RowLaws::output_row))]
pub fn output_at(words: &Words, o: usize) -> Output
    ensures { result ≡ output_at (router_of words.now) o }
{
    match OUTPUT_ROWS.read(words, o) {
        Some(row) => Output::from(row),
        None => Output::default(),
    }
}

// Not as a row: two words as an array were read as one of 64 bits and taken apart, and a round moved an N-Char a sixth slower.
#[tactic(auto, using(crate::proofs::PlaceWords::store_in_lem))]
pub fn store_at(words: &Words, k: usize) -> Store
    ensures { result ≡ store_at (router_of words.now) k }
{
    if k < STORES {
        let at = STORE_WORDS * k + STORES_AT;
        Store::from([words[at], words[at + 1]])
    } else {
        Store::fresh()
    }
}

// This and `set_output` are two public calls, each over a type of its own: what they share is `Rows::write`.
#[tactic(auto, unfolding(crate::specs::RouterWords::with_mode_in))]
pub fn set_mode(words: &mut Words, i: usize, m: Mode)
    ensures { words.new ≡ with_mode_in words.old i m }
{
    INPUT_ROWS.write(words, i, m.into());
}

#[tactic(auto, unfolding(crate::specs::RouterWords::with_output_in))]
pub fn set_output(words: &mut Words, o: usize, out: Output)
    ensures { words.new ≡ with_output_in words.old o out }
{
    OUTPUT_ROWS.write(words, o, out.into());
}

#[tactic(auto, unfolding(crate::specs::RouterWords::with_store_in))]
pub fn set_store(words: &mut Words, k: usize, st: Store)
    ensures { words.new ≡ with_store_in words.old k st }
{
    if k < STORES {
        let at = STORE_WORDS * k + STORES_AT;
        words[at] = words::narrow(st.front);
        words[at + 1] = words::narrow(st.len);
    }
}

pub fn empty_at(words: &Words, k: usize) -> bool
    ensures { result ≡ empty (store_at (router_of words.now) k) }
{
    store_at(words, k).is_empty()
}

pub fn full_at(words: &Words, area: &[u16], k: usize) -> bool
    ensures { result ≡ full_at (machine (router_of words.now) area.now) k }
{
    STORES <= k || store_at(words, k).is_full(area.len() / STORES)
}

// Where the places of a store stand in an area of so many.
#[tactic(auto, using(crate::proofs::PlaceLaws::part_ends))]
fn part(area_len: usize, k: usize) -> Range<usize>
    requires { k < 22 }
    ensures { (result.start ≡ k * (area_len / 22)) × (result.end ≡ k * (area_len / 22) + area_len / 22) }
{
    let size = area_len / STORES;
    k * size..k * size + size
}

// The front N-Char of store `k`, whose record this is. This and the next two are three, and not one that takes the store's
// method: what it answers and whether it writes to the places differs in each.
pub fn front_of(st: Store, area: &[u16], k: usize) -> u16
    ensures { result ≡ pick (ltb k 22) (front_of (places_at area.now k) st) 0 }
{
    if k < STORES {
        st.look(&area[part(area.len(), k)])
    } else {
        0
    }
}

// The record of store `k` with its front N-Char taken.
pub fn drop_of(st: Store, area: &[u16], k: usize) -> Store
    ensures { result ≡ pick (ltb k 22) (without_first (places_at area.now k) st) st }
{
    if k < STORES {
        st.drop_first(&area[part(area.len(), k)])
    } else {
        st
    }
}

// The record of store `k`, and the area, with an N-Char behind those of the store.
pub fn put_of(st: Store, area: &mut [u16], k: usize, n: u16) -> Store
    ensures { (result ≡ pick (ltb k 22) (put_store (size_in area.old) st n) st) × (area.new ≡ put_at area.old k st n) }
{
    if k < STORES {
        let part = part(area.len(), k);
        st.put(&mut area[part], n)
    } else {
        st
    }
}

pub fn front_at(words: &Words, area: &[u16], k: usize) -> u16
    ensures { result ≡ front_at (machine (router_of words.now) area.now) k }
{
    front_of(store_at(words, k), area, k)
}

#[tactic(auto, using(crate::proofs::PlaceWords::store_picked), unfolding(crate::specs::RouterWords::without_front_in))]
pub fn drop_front(words: &mut Words, area: &[u16], k: usize)
    ensures { words.new ≡ without_front_in words.old area.now k }
{
    let next = drop_of(store_at(words, k), area, k);
    set_store(words, k, next);
}

#[tactic(auto, using(crate::proofs::PlaceWords::store_picked), unfolding(crate::specs::RouterWords::with_behind_in))]
pub fn append(words: &mut Words, area: &mut [u16], k: usize, n: u16)
    ensures { (words.new ≡ with_behind_in words.old area.old k n) × (area.new ≡ put_at area.old k (store_at (router_of words.old) k) n) }
{
    let next = put_of(store_at(words, k), area, k, n);
    set_store(words, k, next);
}

pub fn bad_area(area: &[u16]) -> bool
    ensures { result ≡ bad_area area.now }
{
    let size = area.len() / STORES;
    area.len() % STORES != 0 || size < 9 || 1024 < size
}

fn is_held_by(words: &Words, o: usize, i: usize) -> bool
    ensures { result ≡ is_owner (output_at (router_of words.now) o).owner i }
{
    output_at(words, o).owner == Some(i)
}

fn is_routed_to(words: &Words, i: usize, o: usize) -> bool
    ensures { result ≡ is_routed (mode_at (router_of words.now) i) o }
{
    matches!(mode_at(words, i), Mode::Routed(output) if output == o)
}

// Whether the words of an input are those of no mode, or of one that is refused as STATE. It is of the words and not of a
// `Mode`: words that mean no mode are refused here, and `Mode::from` reads them as idle, as `mode_of` says.
fn bad_mode(words: &Words, i: usize, row: [u32; 3]) -> bool
    ensures { result ≡ bad_mode (word_at row 0) (word_at row 1) (word_at row 2) (is_owner (output_at (router_of words.now) (word_at row 1)).owner i) }
{
    let [number, value, high] = row;
    match number {
        0 | 3 => value != 0 || high != 0,
        1 => value == 0 || ALL_PORTS < value || 1 < high,
        2 => high != 0 || !is_held_by(words, value as usize, i),
        _ => true,
    }
}

// Whether the words of an output are those of no owner, or are refused as STATE.
fn bad_owner(words: &Words, o: usize, row: [u32; 3]) -> bool
    ensures { result ≡ bad_owner (word_at row 0) (word_at row 1) (word_at row 2) (is_routed (mode_at (router_of words.now) (word_at row 1)) o) }
{
    let [number, input, last] = row;
    if LAST_PORT < last as usize {
        return true;
    }
    match number {
        0 => input != 0,
        1 => !is_routed_to(words, input as usize, o),
        _ => true,
    }
}

// An idle input and a free output, which most are, are all zeros, told first by one test with `&`: with `&&`, or without it, the
// tests of a router's words took half as long again.
fn bad_rows(words: &Words, p: usize, input: [u32; 3], output: [u32; 3]) -> bool
    ensures { result ≡ bad_mode (word_at input 0) (word_at input 1) (word_at input 2) (is_owner (output_at (router_of words.now) (word_at input 1)).owner p) || bad_owner (word_at output 0) (word_at output 1) (word_at output 2) (is_routed (mode_at (router_of words.now) (word_at output 1)) p) }
{
    let [number, value, high] = input;
    let [held, owner, last] = output;
    if (number == 0) & (value == 0) & (high == 0) & (held == 0) & (owner == 0) {
        LAST_PORT < last as usize
    } else {
        bad_mode(words, p, input) || bad_owner(words, p, output)
    }
}

#[tactic(auto, using(crate::proofs::RowTestLaws::port_rows))]
fn bad_port(words: &Words, p: usize) -> bool
    ensures { result ≡ (ltb p 11 && bad_port_in words.now p) }
{
    match (INPUT_ROWS.read(words, p), OUTPUT_ROWS.read(words, p)) {
        (Some(input), Some(output)) => bad_rows(words, p, input, output),
        _ => false,
    }
}

// 1 STATE: words that keep no router, a port number above 10 in them, an owner and a route that disagree, or an input
// that waits for no port.
pub fn bad_state(words: &Words) -> bool
    ensures { result ≡ bad_state words.now }
{
    (0..PORTS).any(|p| bad_port(words, p))
}

// 1 STATE, behind 2: whether a store's record does not fit `size` places. Over pairs of words: by `store_at` and `is_bad` the 22 took
// 26 ns where they take 7.
pub fn bad_stores(words: &Words, size: u32) -> bool
    ensures { result ≡ any (λ k. bad_store size (store_at (router_of words.now) k)) 0 22 }
{
    let (rows, _) = words[STORES_AT..].as_chunks::<STORE_WORDS>();
    rows.iter().any(|&[front, len]| size <= front || size < len)
}
