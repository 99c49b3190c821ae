// Part 2 of a round: free outputs take the inputs that wait for them.
ghost use Rattle.std.specs.Prelude.{◌≡◌, List, ℕ, ◌<◌, ◌+◌, ◌%◌};
ghost use Rattle.router_rounds.specs.Grants.{waits_for, granted, part2};
ghost use Rattle.router_rounds.specs.InWords.{kept, in_words, tally, counted, added};
ghost use Rattle.router_rounds.specs.declared.Totals.{Totals};
ghost use Rattle.router_rounds.specs.declared.counts.Deed.TheVariants.{Change};
ghost use Rattle.router_ports.specs.Ports.{mode_at};
ghost use Rattle.router_ports.specs.RouterWords.{router_of};

use crate::Totals;
use crate::counts::Deed;
use router_ports::{Mode, Output, PORTS, STORES, Words};

fn waits_for(state: &Words, i: usize, o: usize, high: bool) -> bool
    ensures { result ≡ waits_for o high (mode_at (router_of state.now) i) }
{
    match router_ports::mode_at(state, i) {
        Mode::Waiting(w) => w.high == high && w.wants(o),
        Mode::Idle | Mode::Routed(_) | Mode::Spilling => false,
    }
}

fn in_turn(last: usize, on: usize) -> usize
    requires { on < 100 }
    ensures { result ≡ (last + on) % 11 }
{
    (last % PORTS + on) % PORTS
}

#[tactic(auto, unfolding(crate::specs::Grants::granted, crate::specs::Acts::changed_to))]
fn grant(state: &mut Words, o: usize, i: usize)
    ensures { (c : Totals) (area : List ℕ) → tally (counted c Change) (kept state.new area) ≡ granted in_words (tally c (kept state.old area)) o i }
{
    router_ports::set_output(
        state,
        o,
        Output {
            owner: Some(i),
            last: i,
        },
    );
    router_ports::set_mode(state, i, Mode::Routed(o));
}

// Candidates 0 to 10 are the inputs in cyclic order at high priority, 11 to 21 the same at low. Document 01 names the form:
// nested loops over outputs and inputs, left by label.
pub(crate) fn grant_all(state: &mut Words) -> Totals
    ensures { (c : Totals) (area : List ℕ) → tally (added c result) (kept state.new area) ≡ part2 in_words (tally c (kept state.old area)) }
{
    let mut done = Totals::default();
    'outputs: for o in 0..PORTS {
        let output = router_ports::output_at(state, o);
        if output.owner.is_some() {
            continue 'outputs;
        }
        for k in 0..STORES {
            let i = in_turn(output.last, k + 1);
            if waits_for(state, i, o, k < PORTS) {
                grant(state, o, i);
                done.count(Deed::Change);
                continue 'outputs;
            }
        }
    }
    done
}
