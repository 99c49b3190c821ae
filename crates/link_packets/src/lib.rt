// Packets never run together in a link's stores, whatever the calls. Definitions and theorems only: there is
// nothing to call.
#![tactic(auto)]
