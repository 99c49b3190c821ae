// The router (01, The router): put, take, run, the rows of its table, and what is still held through a port, on the
// words that keep it. A refused call leaves words, area and table as they were. These are three parameters, and no struct,
// since the C interface lends them so (`neftolek_router_run`), some to be changed and some to be read.
#![tactic(auto)]

ghost use Rattle.std.specs.Prelude.{◌≡◌, [], ◌∷◌};
ghost use Rattle.vocabulary.specs.Refusals.{refusal_in, answer_in};
ghost use Rattle.router_ports.specs.Ports.{fresh_router};
ghost use Rattle.router_ports.specs.Places.{machine};
ghost use Rattle.router_ports.specs.RouterWords.{router_words, router_of};
ghost use Rattle.router.specs.Records.{ran_words, none_ran};
ghost use Rattle.router.specs.Refusals.{lent_refusal, put_refusal, take_refusal, run_refusal, held_refusal};
ghost use Rattle.router.specs.RouterCalls.{put_left, take_left, run_left, state_first, row_refused, table_left, row_left};
ghost use Rattle.router.specs.HeldCalls.{asked, answered, held_told, held_left};

use held::Held;
use router_ports::{LAST_PORT, PORTS, STORES, Words};
use router_table::Table;
use vocabulary::{Refusal, refuse};

pub mod held;

// 6 ROUNDS: a run takes no more.
const MOST_ROUNDS: u16 = 10000;

// What a run tells: how many rounds were run, the N-Chars moved and the address errors met.
#[derive(Clone, Copy, Debug, PartialEq, Eq)]
pub struct Ran {
    pub rounds: u32,
    pub moved: u32,
    pub errors: u32,
}

impl From<Ran> for [u32; 3] {
    ghost from_gives = { λ ran words. words ≡ ran_words ran };

    fn from(ran: Ran) -> [u32; 3] {
        [ran.rounds, ran.moved, ran.errors]
    }
}

// Idle inputs, free outputs, empty stores.
pub fn fresh(words: &mut Words)
    ensures { words.new ≡ router_words fresh_router }
{
    router_ports::fresh(words);
}

// The tests of what put, take and run are lent.
fn lent_refusal(words: &Words, area: &[u16]) -> Result<(), Refusal>
    ensures { refusal_in result ≡ state_first words.now (lent_refusal (machine (router_of words.now) area.now) 0) }
{
    refuse(router_ports::bad_state(words), Refusal::State)?;
    refuse(router_ports::bad_area(area), Refusal::Store)?;
    let size = words::narrow(area.len() / STORES);
    refuse(router_ports::bad_stores(words, size), Refusal::State)
}

#[tactic(auto, using(crate::proofs::RefusalLaws::lent_first))]
fn put_refusal(words: &Words, area: &[u16], port: usize, n: u16) -> Result<(), Refusal>
    ensures { refusal_in result ≡ state_first words.now (put_refusal (machine (router_of words.now) area.now) port n) }
{
    lent_refusal(words, area)?;
    refuse(LAST_PORT < port, Refusal::Port)?;
    refuse(vocabulary::above_eep(n), Refusal::Char)?;
    refuse(router_ports::full_at(words, area, port), Refusal::Full)
}

// One N-Char to a port's input store: `put(&mut words, &mut area, 1, 65)`.
#[tactic(auto, using(crate::proofs::InPlaceLaws::put_done, crate::proofs::InPlaceLaws::put_refused))]
pub fn put(words: &mut Words, area: &mut [u16], port: u32, nchar: u32) -> Result<(), Refusal>
    ensures { record { refusal = refusal_in result; state = words.new; area = area.new; out = [] } ≡ put_left words.old area.old port nchar }
{
    let p = port as usize;
    let n = words::fitted(nchar);
    put_refusal(words, area, p, n)?;
    router_ports::append(words, area, p, n);
    Ok(())
}

#[tactic(auto, using(crate::proofs::RefusalLaws::lent_first))]
fn take_refusal(words: &Words, area: &[u16], port: usize) -> Result<(), Refusal>
    ensures { refusal_in result ≡ state_first words.now (take_refusal (machine (router_of words.now) area.now) port) }
{
    lent_refusal(words, area)?;
    refuse(LAST_PORT < port, Refusal::Port)?;
    refuse(router_ports::empty_at(words, PORTS + port), Refusal::Empty)
}

// The front N-Char of a port's output store: `take(&mut words, &area, 3)`.
#[tactic(auto, using(crate::proofs::InPlaceLaws::take_done, crate::proofs::InPlaceLaws::take_refused))]
pub fn take(words: &mut Words, area: &[u16], port: u32) -> Result<u16, Refusal>
    ensures { record { refusal = refusal_in result; state = words.new; area = area.now; out = answer_in 0 result ∷ [] } ≡ take_left words.old area.now port }
{
    let p = port as usize;
    take_refusal(words, area, p)?;
    let taken = router_ports::front_at(words, area, PORTS + p);
    router_ports::drop_front(words, area, PORTS + p);
    Ok(taken)
}

#[tactic(auto, using(crate::proofs::RefusalLaws::lent_first))]
fn run_refusal(words: &Words, area: &[u16], limit: u16) -> Result<(), Refusal>
    ensures { refusal_in result ≡ state_first words.now (run_refusal (machine (router_of words.now) area.now) limit) }
{
    lent_refusal(words, area)?;
    refuse(MOST_ROUNDS < limit, Refusal::Rounds)
}

// Up to `limit` rounds, through the first that changes nothing: `run(&mut words, &mut area, &table, 10)`.
#[tactic(auto, using(crate::proofs::InPlaceLaws::run_done, crate::proofs::InPlaceLaws::run_refused))]
pub fn run(words: &mut Words, area: &mut [u16], table: &Table, limit: u32) -> Result<Ran, Refusal>
    ensures { record { refusal = refusal_in result; state = words.new; area = area.new; out = ran_words (answer_in none_ran result) } ≡ run_left words.old area.old table.now limit }
{
    let most = words::fitted(limit);
    run_refusal(words, area, most)?;
    let totals = router_rounds::run_in_place(words, area, table, most);
    Ok(Ran {
        rounds: totals.rounds as u32,
        moved: totals.moved as u32,
        errors: totals.errors as u32,
    })
}

fn row_refusal(words: &Words, row: usize) -> Result<(), Refusal>
    ensures { refusal_in result ≡ row_refused words.now row }
{
    refuse(router_ports::bad_state(words), Refusal::State)?;
    refuse(router_table::outside_rows(row), Refusal::Row)
}

// A row written: `write_row(&words, &mut table, 39, 4)` has address 39 request port 2.
#[tactic(auto, using(crate::proofs::InPlaceLaws::write_done, crate::proofs::InPlaceLaws::write_refused))]
pub fn write_row(words: &Words, table: &mut Table, row: u32, value: u32) -> Result<(), Refusal>
    ensures { (refusal_in result ≡ row_refused words.now row) × (table.new ≡ table_left words.now table.old row value) }
{
    let k = row as usize;
    row_refusal(words, k)?;
    router_table::write(table, k, value);
    Ok(())
}

// A row's value: `read_row(&words, &table, 39)`.
#[tactic(auto, using(crate::proofs::InPlaceLaws::read_done, crate::proofs::InPlaceLaws::read_refused))]
pub fn read_row(words: &Words, table: &Table, row: u32) -> Result<u32, Refusal>
    ensures { (refusal_in result ≡ (row_left words.now table.now row).refusal) × (answer_in 0 result ≡ (row_left words.now table.now row).value) }
{
    let k = row as usize;
    row_refusal(words, k)?;
    Ok(router_table::read(table, k))
}

fn held_refusal(words: &Words, port: usize) -> Result<(), Refusal>
    ensures { refusal_in result ≡ state_first words.now (held_refusal (router_of words.now) port) }
{
    refuse(router_ports::bad_state(words), Refusal::State)?;
    refuse(LAST_PORT < port, Refusal::Port)
}

// Who still holds something through a port, as a console asks at logout: `still_held(&words, 1)`.
#[tactic(auto, using(crate::proofs::InPlaceLaws::held_done, crate::proofs::InPlaceLaws::held_refused_lem, crate::proofs::InPlaceLaws::asked_told, crate::proofs::RefusalLaws::held_accepts))]
pub fn still_held(words: &Words, port: u32) -> Result<Held, Refusal>
    ensures told { answered result ≡ held_told words.now port }
    ensures in_words { asked (answered result) ≡ held_left words.now port }
{
    let p = port as usize;
    held_refusal(words, p)?;
    Ok(held::through(words, p))
}
