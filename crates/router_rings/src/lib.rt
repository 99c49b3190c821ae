// The router over plain lists of N-Chars, and the router over state and lent area, go on alike. Definitions and
// theorems only: there is nothing to call.
#![tactic(auto)]
