// Part 1 of a round: idle inputs read the first N-Char of a packet.
ghost use Rattle.std.specs.Prelude.{◌≡◌};
ghost use Rattle.router_rounds.specs.Addresses.{waits, follows, reads, addresses, part1};
ghost use Rattle.router_rounds.specs.InWords.{kept, in_words, tally, counted, added};
ghost use Rattle.router_rounds.specs.declared.Totals.{Totals};

use crate::Totals;
use crate::counts::Deed;
use router_ports::{Mode, PORTS, Wanted, Words};
use router_table::{Direction, Heading, Table};

#[tactic(auto, unfolding(crate::specs::Addresses::waits))]
fn wait(state: &mut Words, area: &[u16], i: usize, d: Direction)
    ensures { kept state.new area.now ≡ waits in_words (kept state.old area.now) i d }
{
    let wanted = Wanted {
        ports: d.ports,
        high: d.high,
    };
    router_ports::set_mode(state, i, Mode::Waiting(wanted));
    if d.delete {
        router_ports::drop_front(state, area, i);
    }
}

#[tactic(auto, unfolding(crate::specs::Acts::changed_to, crate::specs::Acts::count_error))]
fn follow(state: &mut Words, area: &[u16], i: usize, h: Heading) -> Deed
    ensures { (c : Totals) → tally (counted c result) (kept state.new area.now) ≡ follows in_words (tally c (kept state.old area.now)) i h }
{
    match h {
        Heading::End => {
            router_ports::drop_front(state, area, i);
            Deed::Change
        }
        Heading::Nowhere => {
            router_ports::set_mode(state, i, Mode::Spilling);
            Deed::AddressError
        }
        Heading::Ports(d) => {
            wait(state, area, i, d);
            Deed::Change
        }
    }
}

#[tactic(auto, unfolding(crate::specs::Addresses::reads))]
fn read(state: &mut Words, area: &[u16], table: &Table, i: usize) -> Deed
    ensures { (c : Totals) → tally (counted c result) (kept state.new area.now) ≡ reads in_words table.now (tally c (kept state.old area.now)) i }
{
    if router_ports::empty_at(state, i) {
        return Deed::Nothing;
    }
    let n = router_ports::front_at(state, area, i);
    follow(state, area, i, router_table::heading_of(n, table))
}

#[tactic(auto, unfolding(crate::specs::Addresses::addresses))]
fn address(state: &mut Words, area: &[u16], table: &Table, i: usize) -> Deed
    ensures { (c : Totals) → tally (counted c result) (kept state.new area.now) ≡ addresses in_words table.now (tally c (kept state.old area.now)) i }
{
    match router_ports::mode_at(state, i) {
        Mode::Idle => read(state, area, table, i),
        Mode::Waiting(_) | Mode::Routed(_) | Mode::Spilling => Deed::Nothing,
    }
}

// Its loop and that of part 3 stay two: `send_all` in moves.rt says why.
pub(crate) fn read_all(state: &mut Words, area: &[u16], table: &Table) -> Totals
    ensures { (c : Totals) → tally (added c result) (kept state.new area.now) ≡ part1 in_words table.now (tally c (kept state.old area.now)) }
{
    let mut done = Totals::default();
    for i in 0..PORTS {
        done.count(address(state, area, table, i));
    }
    done
}
