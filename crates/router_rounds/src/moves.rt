// Part 3 of a round: routed inputs move one N-Char, spilling inputs discard one.
ghost use Rattle.std.specs.Prelude.{◌≡◌, List, ℕ, ◌<◌};
ghost use Rattle.router_rounds.specs.Moves.{frees, carries, moves_one, spills, spills_one, sends, part3};
ghost use Rattle.router_rounds.specs.InWords.{kept, in_words, tally, counted, added};
ghost use Rattle.router_rounds.specs.declared.Totals.{Totals};

use crate::Totals;
use crate::counts::Deed;
use router_ports::{Mode, Output, PORTS, Words};

#[tactic(auto, unfolding(crate::specs::Moves::frees))]
fn free_both(state: &mut Words, i: usize, o: usize)
    ensures { (area : List ℕ) → kept state.new area ≡ frees in_words (kept state.old area) i o }
{
    let last = router_ports::output_at(state, o).last;
    router_ports::set_output(state, o, Output { owner: None, last });
    router_ports::set_mode(state, i, Mode::Idle);
}

// The input's store is read first: the output's is another. Read after the append, it makes a round of eleven streams up to
// a fifth slower, and the bar leaves no such room (docs/SPEED.md).
fn carry(state: &mut Words, area: &mut [u16], i: usize, o: usize, n: u16)
    requires { (i < 11) × (o < 11) }
    ensures { kept state.new area.new ≡ carries in_words (kept state.old area.old) i o n }
{
    let st = router_ports::store_at(state, i);
    router_ports::append(state, area, PORTS + o, n);
    router_ports::set_store(state, i, router_ports::drop_of(st, area, i));
}

#[tactic(auto, unfolding(crate::specs::Moves::moves_one, crate::specs::Moves::moves, crate::specs::Acts::changed_to, crate::specs::Acts::count_moved))]
fn move_one(state: &mut Words, area: &mut [u16], i: usize, o: usize) -> Deed
    requires { i < 11 }
    ensures { (c : Totals) → tally (counted c result) (kept state.new area.new) ≡ moves_one in_words (tally c (kept state.old area.old)) i o }
{
    if PORTS <= o
        || router_ports::full_at(state, area, PORTS + o)
        || router_ports::empty_at(state, i)
    {
        return Deed::Nothing;
    }
    let n = router_ports::front_at(state, area, i);
    carry(state, area, i, o, n);
    if vocabulary::is_end(n) {
        free_both(state, i, o);
    }
    Deed::Move
}

#[tactic(auto, unfolding(crate::specs::Moves::spills))]
fn spill(state: &mut Words, area: &[u16], i: usize, n: u16)
    ensures { kept state.new area.now ≡ spills in_words (kept state.old area.now) i n }
{
    router_ports::drop_front(state, area, i);
    if vocabulary::is_end(n) {
        router_ports::set_mode(state, i, Mode::Idle);
    }
}

#[tactic(auto, unfolding(crate::specs::Moves::spills_one, crate::specs::Acts::changed_to))]
fn spill_one(state: &mut Words, area: &[u16], i: usize) -> Deed
    ensures { (c : Totals) → tally (counted c result) (kept state.new area.now) ≡ spills_one in_words (tally c (kept state.old area.now)) i }
{
    if router_ports::empty_at(state, i) {
        return Deed::Nothing;
    }
    let n = router_ports::front_at(state, area, i);
    spill(state, area, i, n);
    Deed::Change
}

#[tactic(auto, using(crate::proofs::CarryLaws::routed_below), unfolding(crate::specs::Moves::sends))]
fn send(state: &mut Words, area: &mut [u16], i: usize) -> Deed
    ensures { (c : Totals) → tally (counted c result) (kept state.new area.new) ≡ sends in_words (tally c (kept state.old area.old)) i }
{
    match router_ports::mode_at(state, i) {
        Mode::Routed(o) => move_one(state, area, i, o),
        Mode::Spilling => spill_one(state, area, i),
        Mode::Idle | Mode::Waiting(_) => Deed::Nothing,
    }
}

// Its loop and that of part 1 stay two: over a closure that borrows state and area, one loop would ask of the closure's
// calls what each now promises of its own.
pub(crate) fn send_all(state: &mut Words, area: &mut [u16]) -> Totals
    ensures { (c : Totals) → tally (added c result) (kept state.new area.new) ≡ part3 in_words (tally c (kept state.old area.old)) }
{
    let mut done = Totals::default();
    for i in 0..PORTS {
        done.count(send(state, area, i));
    }
    done
}
