// What a stream of bits means, and that the decoder says just that. Definitions and theorems only: there is
// nothing to call.
#![tactic(auto)]
