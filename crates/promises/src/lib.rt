// What every public call promises, in one place. Definitions and theorems only: there is nothing to call.
#![tactic(auto)]
