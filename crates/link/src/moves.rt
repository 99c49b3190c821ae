// The moves (01, The link end): which state follows.
#![tactic(auto, unfolding(crate::specs::LinkWords::link_words))]

ghost use Rattle.std.specs.Prelude.{◌≡◌, ◌<◌, ◌&&◌, leb};
ghost use Rattle.link.specs.Records.{Link};
ghost use Rattle.link.specs.Moves.{limit_of, counts_ticks, enabled_by, conditions, next_state, entered, state_number};
ghost use Rattle.link.specs.Table.{table_at, condition_number, column_holds, first_from};
ghost use Rattle.link.specs.InPlace.{Reads, Writes};

use crate::LinkState::{Connecting, ErrorReset, ErrorWait, Ready, Run, Started};
use crate::fields::{AUTO, DISABLED, GOT_NULL, NULL_SENT, START, STATE, TIMER, Words};
use crate::{Event, LinkState, fields};

// What a state waits for, by its column of the table.
#[derive(Clone, Copy, Debug, PartialEq, Eq)]
enum Condition {
    Enabled = 6,
    Exchanged,
    Disabled,
    AtLimit,
}

const CONDITIONS: [Condition; 4] = [
    Condition::Enabled,
    Condition::Exchanged,
    Condition::Disabled,
    Condition::AtLimit,
];

// The next state for each state and kind of event, by number: a row for each state, a column for nothing, fault, FCT,
// N-Char, Time-Code, credit error, then enabled, NULLs exchanged, LinkDisabled, timer at its limit. A state's own number is
// no move. Document 01 names this form, numbers too.
static NEXT: [[u8; 10]; 6] = [
    [0, 0, 0, 0, 0, 0, 0, 0, 0, 1],
    [1, 0, 0, 0, 0, 1, 1, 1, 1, 2],
    [2, 0, 0, 0, 0, 2, 3, 2, 2, 2],
    [3, 0, 0, 0, 0, 3, 3, 4, 3, 0],
    [4, 0, 5, 0, 0, 4, 4, 4, 4, 0],
    [5, 0, 5, 5, 5, 0, 5, 5, 0, 5],
];

// Where a state's timer moves it.
pub(crate) fn limit(state: LinkState) -> u32
    ensures { result ≡ limit_of state }
{
    match state {
        ErrorReset => 64,
        Ready | Run => 1,
        ErrorWait | Started | Connecting => 128,
    }
}

pub(crate) fn counts_ticks(state: LinkState) -> bool
    ensures { result ≡ counts_ticks state }
{
    !matches!(state, Ready | Run)
}

fn is_enabled(words: &Words) -> bool
    ensures { Reads words.now (λ (l : Link). enabled_by l.controls l.stage.gotnull) result }
{
    !words::truth(words[DISABLED])
        && (words::truth(words[START])
            || words::truth(words[AUTO]) && words::truth(words[GOT_NULL]))
}

fn exchanged(words: &Words) -> bool
    ensures { Reads words.now (λ (l : Link). l.stage.gotnull && l.stage.nullsent) result }
{
    words::truth(words[GOT_NULL]) && words::truth(words[NULL_SENT])
}

fn at_limit(words: &Words) -> bool
    ensures { Reads words.now (λ (l : Link). leb (limit_of l.stage.state) l.stage.timer) result }
{
    limit(fields::state_in(words)) <= words[TIMER]
}

// A match on four conditions: four functions in an array would each need the contract that this one has.
fn holds(words: &Words, condition: Condition) -> bool
    ensures { Reads words.now (λ (l : Link). column_holds (conditions l) (condition_number condition)) result }
{
    match condition {
        Condition::Enabled => is_enabled(words),
        Condition::Exchanged => exchanged(words),
        Condition::Disabled => words::truth(words[DISABLED]),
        Condition::AtLimit => at_limit(words),
    }
}

// By its number, so that a contract holds what the table has: `state_of` reads any number above 4 as Run.
#[tactic(auto, using(crate::proofs::TableLaws::cell_number))]
fn cell(state: LinkState, column: usize) -> u8
    requires { column < 10 }
    ensures { result ≡ state_number (table_at state column) }
{
    NEXT[state as usize][column]
}

#[tactic(auto, using(crate::proofs::TableLaws::numbered_state))]
fn look_up(state: LinkState, column: usize) -> LinkState
    requires { column < 10 }
    ensures { result ≡ table_at state column }
{
    fields::state_of(u32::from(cell(state, column)))
}

// Beside what came, the first condition that holds and whose cell is not the state itself.
#[tactic(auto, using(crate::proofs::TableLaws::first_done))]
fn first_other(words: &Words) -> LinkState
    ensures { Reads words.now (λ (l : Link). first_from l.stage.state (conditions l) 6 4) result }
{
    let state = fields::state_in(words);
    for condition in CONDITIONS {
        let to = look_up(state, condition as usize);
        if to != state && holds(words, condition) {
            return to;
        }
    }
    state
}

// The state after an event's effect.
#[tactic(auto, using(crate::proofs::TableLaws::same_is_state, crate::proofs::TableLaws::event_moves, crate::proofs::TableLaws::event_stays))]
pub(crate) fn next_state(e: Event, words: &Words) -> LinkState
    ensures { Reads words.now (λ (l : Link). next_state e l) result }
{
    let state = fields::state_in(words);
    let to = look_up(state, e as usize);
    if to == state { first_other(words) } else { to }
}

pub(crate) fn enter(words: &mut Words, s: LinkState)
    ensures { Writes words.old (λ (l : Link). entered l s) words.new }
{
    words[STATE] = s as u32;
    words[TIMER] = 0;
}
