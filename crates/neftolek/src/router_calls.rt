// Router and routing table. A refused call leaves the state's words, the area and the table, and answers zeros in
// `out`.
ghost use Rattle.std.specs.Prelude.{◌≡◌, [], ◌∷◌};
ghost use Rattle.router_table.specs.Rows.{fresh_table};
ghost use Rattle.router_ports.specs.Ports.{fresh_router};
ghost use Rattle.router_ports.specs.RouterWords.{router_words};
ghost use Rattle.router.specs.RouterCalls.{put_left, take_left, run_left, row_refused, table_left, row_left};

use crate::answers;
use router_ports::Words;
use router_table::Table;

pub fn neftolek_router_fresh(state: &mut Words)
    ensures { state.new ≡ router_words fresh_router }
{
    router::fresh(state);
}

pub fn neftolek_table_fresh(table: &mut Table)
    ensures { table.new ≡ fresh_table }
{
    router_table::fresh(table);
}

// One N-Char to a port's input store.
pub fn neftolek_router_put(state: &mut Words, area: &mut [u16], port: u32, nchar: u32) -> u32
    ensures { record { refusal = result; state = state.new; area = area.new; out = [] }
        ≡ put_left state.old area.old port nchar }
{
    answers::number(router::put(state, area, port, nchar))
}

// The front N-Char of a port's output store, in `out`.
pub fn neftolek_router_take(state: &mut Words, area: &[u16], port: u32, out: &mut [u32; 1]) -> u32
    ensures { record { refusal = result; state = state.new; area = area.now; out = out.new }
        ≡ take_left state.old area.now port }
{
    words::answer(
        router::take(state, area, port)
            .map(u32::from)
            .map(answers::one_word),
        out,
    )
}

// Rounds, at most `limit`: `out` gets how many were run, the N-Chars moved and the address errors met.
pub fn neftolek_router_run(
    state: &mut Words,
    area: &mut [u16],
    table: &Table,
    limit: u32,
    out: &mut [u32; 3],
) -> u32
    ensures { record { refusal = result; state = state.new; area = area.new; out = out.new }
        ≡ run_left state.old area.old table.now limit }
{
    words::answer(
        router::run(state, area, table, limit).map(<[u32; 3]>::from),
        out,
    )
}

pub fn neftolek_router_write_row(state: &Words, table: &mut Table, row: u32, value: u32) -> u32
    ensures { (result ≡ row_refused state.now row)
        × (table.new ≡ table_left state.now table.old row value) }
{
    answers::number(router::write_row(state, table, row, value))
}

// A row's value, in `out`.
pub fn neftolek_router_read_row(state: &Words, table: &Table, row: u32, out: &mut [u32; 1]) -> u32
    ensures { (result ≡ (row_left state.now table.now row).refusal)
        × (out.new ≡ (row_left state.now table.now row).value ∷ []) }
{
    words::answer(
        router::read_row(state, table, row).map(answers::one_word),
        out,
    )
}
