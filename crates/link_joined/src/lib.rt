// Two link ends joined by two wires, and what holds between them. Definitions and theorems only: there is
// nothing to call.
#![tactic(auto)]
