// What a program in C links: each function of `neftolek` as an export, under its name and with its clauses. An archive
// has the exports of its own crate alone, and no crate stands on an archive, so the functions themselves are a library.
#![tactic(auto)]

pub mod character_calls;
pub mod held_calls;
pub mod link_calls;
pub mod router_calls;
