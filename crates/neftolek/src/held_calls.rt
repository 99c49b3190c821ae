// What is still held through a port of the router. The state's words are only read. `out` gets what its input does (0 idle,
// 1 waiting, 2 routed, 3 spilling), the ports that it waits for and at which priority, its output, how many N-Chars wait
// there; whether its output is held, by which input, how many wait there; which inputs wait for it, which inputs have
// N-Chars that no round has moved; and whether nothing is held through it.
ghost use Rattle.std.specs.Prelude.{◌≡◌};
ghost use Rattle.router.specs.HeldCalls.{held_left};

use router::held;
use router_ports::Words;

#[tactic(auto, unfolding(router::specs::HeldCalls::asked, router::specs::HeldCalls::held_words, router::specs::Held::held_refused))]
pub fn neftolek_router_still_held(state: &Words, port: u32, out: &mut [u32; held::WORDS]) -> u32
    ensures { record { refusal = result; out = out.new } ≡ held_left state.now port }
{
    let held = router::still_held(state, port);
    words::answer(held.map(<[u32; held::WORDS]>::from), out)
}
