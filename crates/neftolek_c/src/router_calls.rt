// Router and routing table: each export is the call of `neftolek` with its name, with its clauses.
ghost use Rattle.std.specs.Prelude.{◌≡◌, [], ◌∷◌};
ghost use Rattle.router_table.specs.Rows.{fresh_table};
ghost use Rattle.router_ports.specs.Ports.{fresh_router};
ghost use Rattle.router_ports.specs.RouterWords.{router_words};
ghost use Rattle.router.specs.RouterCalls.{put_left, take_left, run_left, row_refused, table_left, row_left};

use neftolek::router_calls;
use router_ports::Words;
use router_table::Table;

#[unsafe(no_mangle)]
pub extern "C" fn neftolek_router_fresh(state: &mut Words)
    ensures { state.new ≡ router_words fresh_router }
{
    router_calls::neftolek_router_fresh(state);
}

#[unsafe(no_mangle)]
pub extern "C" fn neftolek_table_fresh(table: &mut Table)
    ensures { table.new ≡ fresh_table }
{
    router_calls::neftolek_table_fresh(table);
}

#[unsafe(no_mangle)]
pub extern "C" fn neftolek_router_put(
    state: &mut Words,
    area: &mut [u16],
    port: u32,
    nchar: u32,
) -> u32
    ensures { record { refusal = result; state = state.new; area = area.new; out = [] }
        ≡ put_left state.old area.old port nchar }
{
    router_calls::neftolek_router_put(state, area, port, nchar)
}

#[unsafe(no_mangle)]
pub extern "C" fn neftolek_router_take(
    state: &mut Words,
    area: &[u16],
    port: u32,
    out: &mut [u32; 1],
) -> u32
    ensures { record { refusal = result; state = state.new; area = area.now; out = out.new }
        ≡ take_left state.old area.now port }
{
    router_calls::neftolek_router_take(state, area, port, out)
}

#[unsafe(no_mangle)]
pub extern "C" fn neftolek_router_run(
    state: &mut Words,
    area: &mut [u16],
    table: &Table,
    limit: u32,
    out: &mut [u32; 3],
) -> u32
    ensures { record { refusal = result; state = state.new; area = area.new; out = out.new }
        ≡ run_left state.old area.old table.now limit }
{
    router_calls::neftolek_router_run(state, area, table, limit, out)
}

#[unsafe(no_mangle)]
pub extern "C" fn neftolek_router_write_row(
    state: &Words,
    table: &mut Table,
    row: u32,
    value: u32,
) -> u32
    ensures { (result ≡ row_refused state.now row)
        × (table.new ≡ table_left state.now table.old row value) }
{
    router_calls::neftolek_router_write_row(state, table, row, value)
}

#[unsafe(no_mangle)]
pub extern "C" fn neftolek_router_read_row(
    state: &Words,
    table: &Table,
    row: u32,
    out: &mut [u32; 1],
) -> u32
    ensures { (result ≡ (row_left state.now table.now row).refusal)
        × (out.new ≡ (row_left state.now table.now row).value ∷ []) }
{
    router_calls::neftolek_router_read_row(state, table, row, out)
}
