// Rounds of the router (01, The router): three parts, each in port order, and a run of them, on the words that keep it.
#![tactic(auto)]

ghost use Rattle.std.specs.Prelude.{◌≡◌, ◌<◌, ◌^◌};
ghost use Rattle.router_rounds.specs.Addresses.{part1};
ghost use Rattle.router_rounds.specs.Grants.{part2};
ghost use Rattle.router_rounds.specs.Moves.{part3};
ghost use Rattle.router_rounds.specs.Rounds.{begun, rounds};
ghost use Rattle.router_rounds.specs.InWords.{kept, in_words, tally, added};
ghost use Rattle.router_rounds.specs.declared.Totals.{Totals};

use router_ports::Words;
use router_table::Table;

mod addresses;
mod counts;
mod grants;
mod moves;
mod quiet;

// What a part of a round, or a run, has counted, and whether it changed anything: a run's last round. As wide as a
// register, so that a count stays in one.
#[derive(Clone, Copy, Debug, Default, PartialEq, Eq)]
pub struct Totals {
    pub rounds: usize,
    pub moved: usize,
    pub errors: usize,
    pub changed: bool,
}

// State and area stay two parameters in all parts: a struct that holds both as `&mut` would promise at each call that it
// still holds the same two (`self.new.state.ghost_name ≡ self.old.state.ghost_name`), which is no plainer.

// Parts 1 and 2. Where no input has an address to read and none waits, no port is looked at again.
fn read_and_grant(state: &mut Words, area: &[u16], table: &Table) -> Totals
    ensures { (c : Totals) → tally (added c result) (kept state.new area.now) ≡ part2 in_words (part1 in_words table.now (tally c (kept state.old area.now))) }
{
    if !quiet::some_stir(state) {
        return Totals::default();
    }
    let mut done = addresses::read_all(state, area, table);
    done.add(grants::grant_all(state));
    done
}

fn one_round(state: &mut Words, area: &mut [u16], table: &Table) -> Totals
    ensures { (c : Totals) → tally (added c result) (kept state.new area.new) ≡ part3 in_words (part2 in_words (part1 in_words table.now (tally c (kept state.old area.old)))) }
{
    let mut done = read_and_grant(state, area, table);
    done.add(moves::send_all(state, area));
    done
}

// Rounds until one changes nothing, at most `limit`: `run_in_place(&mut state, &mut area, &table, 10)` where input 1 holds 3,
// 65, EOP and the rest is fresh runs 3 rounds and moves 2 N-Chars.
pub fn run_in_place(state: &mut Words, area: &mut [u16], table: &Table, limit: u16) -> Totals
    ensures area_after { tally result (kept state.new area.new) ≡ rounds in_words table.now limit (begun (kept state.old area.old)) }
    ensures rounds_bound { (result.rounds < 2 ^ 32) × (result.moved < 2 ^ 32) × (result.errors < 2 ^ 32) }
{
    let mut totals = Totals::default();
    for _ in 0..limit {
        totals.begin_round();
        totals.add(one_round(state, area, table));
        if !totals.changed {
            return totals;
        }
    }
    totals
}
