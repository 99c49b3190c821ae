// The routing table (01, The router): 256 rows that the caller lends, and what a packet's first N-Char says.
#![tactic(auto)]

ghost use Rattle.std.specs.Prelude.{◌≡◌, ◌<◌};
ghost use Rattle.router_table.specs.Rows.{bit, fresh_table, requests, written_row, row_at, with_row, outside_rows};
ghost use Rattle.router_table.specs.Headings.{to_port, by_row, row_heading, address_heading, heading};
ghost use Rattle.router_table.specs.Headings.{heading_number, heading_values};

pub const ROWS: usize = 256;

pub type Table = [u32; ROWS];

// What a row is that requests no port: invalid.
const INVALID: u32 = 0x80000000;

// Where a row says that the header is deleted, that the priority is high, and that the row is invalid.
const DELETES_AT: u32 = 29;

const HIGH_AT: u32 = 30;

const INVALID_AT: u32 = 31;

// Wanted ports, bit p for port p, at which priority, and whether the header is deleted.
#[derive(Clone, Copy, Debug, Default, PartialEq, Eq)]
pub struct Direction {
    pub ports: u16,
    pub high: bool,
    pub delete: bool,
}

// What the front N-Char of an idle input says.
#[derive(Clone, Copy, Debug, PartialEq, Eq)]
pub enum Heading {
    End,
    Nowhere,
    Ports(Direction),
}

impl Heading {
    // The number of a heading: 0 an end, 1 nowhere, 2 ports. No `From`, since it leaves out what the heading carries.
    pub fn number(self) -> u8
        ensures { result ≡ heading_number self }
    {
        match self {
            Heading::End => 0,
            Heading::Nowhere => 1,
            Heading::Ports(_) => 2,
        }
    }

    // What a heading carries; zero where it carries nothing.
    pub fn values(self) -> Direction
        ensures { result ≡ heading_values self }
    {
        match self {
            Heading::Ports(direction) => direction,
            Heading::End | Heading::Nowhere => Direction::default(),
        }
    }
}

#[tactic(auto, unfolding(crate::specs::Rows::fresh_table))]
pub fn fresh(table: &mut Table)
    ensures { table.new ≡ fresh_table }
{
    *table = [INVALID; ROWS];
}

fn bit(row: u32, place: u32) -> bool
    requires { place < 32 }
    ensures { result ≡ bit row place }
{
    (row >> place) % 2 == 1
}

fn requested(row: u32) -> u16
    ensures { result ≡ requests row }
{
    ((row / 2 % 1024) * 2) as u16
}

fn written(value: u32) -> u32
    ensures { result ≡ written_row value }
{
    let ports = requested(value);
    if ports == 0 {
        INVALID
    } else {
        ((value >> DELETES_AT) << DELETES_AT) + u32::from(ports)
    }
}

pub fn outside_rows(row: usize) -> bool
    ensures { result ≡ outside_rows row }
{
    row < 32 || 255 < row
}

// The row as a write leaves it: `write(&mut t, 39, 4)` has row 39 request port 2.
#[tactic(auto, unfolding(crate::specs::Rows::with_row))]
pub fn write(table: &mut Table, row: usize, value: u32)
    ensures { table.new ≡ with_row table.old row value }
{
    // Not by `get_mut`: it says nothing of the rows behind the borrow.
    if row < ROWS {
        table[row] = written(value);
    }
}

pub fn read(table: &Table, row: usize) -> u32
    ensures { result ≡ row_at table.now row }
{
    table.get(row).copied().unwrap_or(0)
}

#[tactic(auto, unfolding(crate::specs::Headings::to_port))]
fn to_port(port: u8) -> Direction
    requires { port < 11 }
    ensures { result ≡ to_port port }
{
    Direction {
        ports: 1u16 << port,
        high: false,
        delete: true,
    }
}

#[tactic(auto, unfolding(crate::specs::Headings::by_row))]
fn by_row(row: u32) -> Direction
    ensures { result ≡ by_row row }
{
    Direction {
        ports: requested(row),
        high: bit(row, HIGH_AT),
        delete: bit(row, DELETES_AT),
    }
}

#[tactic(auto, unfolding(crate::specs::Headings::row_heading))]
fn row_heading(row: u32) -> Heading
    ensures { result ≡ row_heading row }
{
    if bit(row, INVALID_AT) || requested(row) == 0 {
        Heading::Nowhere
    } else {
        Heading::Ports(by_row(row))
    }
}

#[tactic(auto, unfolding(crate::specs::Headings::address_heading))]
fn address_heading(address: u8, table: &Table) -> Heading
    ensures { result ≡ address_heading table.now address }
{
    match address {
        0..=10 => Heading::Ports(to_port(address)),
        11..=31 => Heading::Nowhere,
        _ => row_heading(read(table, usize::from(address))),
    }
}

// An end, an address that leads nowhere, or the ports that the packet wants.
#[tactic(auto, unfolding(crate::specs::Headings::heading))]
pub fn heading_of(n: u16, table: &Table) -> Heading
    ensures { result ≡ heading table.now n }
{
    match u8::try_from(n) {
        Ok(address) => address_heading(address, table),
        Err(_) => Heading::End,
    }
}
