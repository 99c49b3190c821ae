// The C interface: every call of characters, link and router on states that are arrays of words. Any words may be
// handed in; those that are no state are refused as STATE. `neftolek_c` has the exports. The functions are alike, and so are the
// exports, because C has a name and parameters of its own for each call.
#![tactic(auto)]

mod answers;
pub mod character_calls;
pub mod held_calls;
pub mod link_calls;
pub mod router_calls;
