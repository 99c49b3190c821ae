// Whether parts 1 and 2 of a round have anything to do.
ghost use Rattle.std.specs.Prelude.{◌≡◌};
ghost use Rattle.store.specs.Ring.{empty};
ghost use Rattle.router_ports.specs.Each.{any};
ghost use Rattle.router_ports.specs.Ports.{mode_at, store_at};
ghost use Rattle.router_ports.specs.RouterWords.{router_of};
ghost use Rattle.router_rounds.specs.InWords.{stirs};

use router_ports::{PORTS, Words};

fn stirs(state: &Words, i: usize) -> bool
    ensures { result ≡ stirs (mode_at (router_of state.now) i) (empty (store_at (router_of state.now) i)) }
{
    let idle = router_ports::is_idle(state, i);
    let none = router_ports::empty_at(state, i);
    router_ports::is_waiting(state, i) | (idle & !none)
}

// Whether an input is idle with an N-Char, or waits. No way out of the loop: all of it costs less than a branch that is
// guessed wrong.
pub(crate) fn some_stir(state: &Words) -> bool
    ensures { result ≡ any (λ i. stirs (mode_at (router_of state.now) i) (empty (store_at (router_of state.now) i))) 0 11 }
{
    let mut stir = false;
    for i in 0..PORTS {
        stir |= stirs(state, i);
    }
    stir
}
