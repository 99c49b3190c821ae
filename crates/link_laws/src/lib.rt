// What calls on a link end, one after the other, come to. Definitions and theorems only: there is nothing to call.
#![tactic(auto)]
