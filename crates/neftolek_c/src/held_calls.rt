// What is still held through a port of the router: the call of `neftolek` with its name, with its clause.
ghost use Rattle.std.specs.Prelude.{◌≡◌};
ghost use Rattle.router.specs.HeldCalls.{held_left};

use neftolek::held_calls;
use router::held;
use router_ports::Words;

#[unsafe(no_mangle)]
pub extern "C" fn neftolek_router_still_held(
    state: &Words,
    port: u32,
    out: &mut [u32; held::WORDS],
) -> u32
    ensures { record { refusal = result; out = out.new } ≡ held_left state.now port }
{
    held_calls::neftolek_router_still_held(state, port, out)
}
