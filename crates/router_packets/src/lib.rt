// No packet inside another: what calls on the router do to the packets that are put to it. Definitions and theorems
// only: there is nothing to call.
#![tactic(auto)]
