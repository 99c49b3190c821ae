// Runs the router's examples of document 01 and five more, and writes what each run told and what each output holds.
#![tactic(auto)]

use router_ports::{PORTS, STORES, WORDS, Words};
use router_table::{ROWS, Table};
use std::{fmt, io};
use vocabulary::Refusal;

// The smallest stores that a router may have.
const PLACES: usize = 9;

const AREA: usize = STORES * PLACES;

// Why the program ends early: a call is refused, or a line cannot be written.
#[derive(Drop)]
enum Failure {
    Refused(Refusal),
    Unwritten(io::Error),
}

// By hand, so that what `main` ends with reads as the error itself.
impl fmt::Debug for Failure {
    fn fmt<W: fmt::Write>(&self, f: &mut fmt::Formatter<W>) -> fmt::Result {
        match self {
            Failure::Refused(refusal) => refusal.fmt(f),
            Failure::Unwritten(error) => error.fmt(f),
        }
    }
}

impl From<Refusal> for Failure {
    fn from(refusal: Refusal) -> Failure {
        Failure::Refused(refusal)
    }
}

impl From<io::Error> for Failure {
    fn from(error: io::Error) -> Failure {
        Failure::Unwritten(error)
    }
}

// A router with its stores and its table, fresh at first.
// The incident's program has its own, as it has its own `Failure`: a reader who starts from one program has all of it there.
#[derive(Drop)]
struct Bench {
    words: Words,
    area: [u16; AREA],
    table: Table,
}

impl Bench {
    fn new() -> Bench {
        let mut bench = Bench {
            words: [0; WORDS],
            area: [0; AREA],
            table: [0; ROWS],
        };
        router::fresh(&mut bench.words);
        router_table::fresh(&mut bench.table);
        bench
    }

    fn write_row(&mut self, row: u32, value: u32) -> Result<(), Refusal> {
        router::write_row(&self.words, &mut self.table, row, value)
    }

    // N-Chars to an input, one after the other.
    fn put_all(&mut self, port: u32, nchars: &[u32]) -> Result<(), Refusal> {
        for nchar in nchars {
            router::put(&mut self.words, &mut self.area, port, *nchar)?;
        }
        Ok(())
    }

    // Takes what an output of a copy of the router holds, and writes it in a line; none where it holds nothing.
    fn show_output(&self, rt: &impl Print, port: u32) -> io::Result<()> {
        let mut copy = self.words;
        let Ok(first) = router::take(&mut copy, &self.area, port) else {
            return Ok(());
        };
        print!(rt; "  output {port}: {first}")?;
        for _ in 1..PLACES {
            if let Ok(nchar) = router::take(&mut copy, &self.area, port) {
                print!(rt; " {nchar}")?;
            }
        }
        println!(rt)
    }

    fn run(&mut self, rt: &impl Print, name: &str, limit: u32) -> Result<(), Failure> {
        let ran = router::run(&mut self.words, &mut self.area, &self.table, limit)?;
        println!(rt;
            "{name}: rounds {} moved {} errors {}",
            ran.rounds, ran.moved, ran.errors
        )?;
        for port in 0..PORTS {
            self.show_output(rt, words::narrow(port))?;
        }
        Ok(())
    }
}

// One input alone is put N-Chars.
fn from_one_input(
    rt: &impl Print,
    name: &str,
    port: u32,
    nchars: &[u32],
    limit: u32,
) -> Result<(), Failure> {
    let mut bench = Bench::new();
    bench.put_all(port, nchars)?;
    bench.run(rt, name, limit)
}

// Row 40 requests ports 2 and 4 and keeps the header: the lower free port first.
fn group(rt: &impl Print) -> Result<(), Failure> {
    let mut bench = Bench::new();
    bench.write_row(40, 0x14)?;
    bench.put_all(1, &[40, 66, 256])?;
    bench.put_all(2, &[40, 67, 256])?;
    bench.run(rt, "group", 10)
}

// Input 2 waits for port 3 by row 50; that the row then requests port 4 does not change what it wants.
fn rewritten(rt: &impl Print) -> Result<(), Failure> {
    let mut bench = Bench::new();
    bench.write_row(50, 0x20000008)?;
    bench.put_all(1, &[3, 70, 71])?;
    bench.put_all(2, &[50, 72, 256])?;
    bench.run(rt, "held", 10)?;
    bench.write_row(50, 0x20000010)?;
    bench.put_all(1, &[256])?;
    bench.run(rt, "rewritten", 10)
}

// Rows 60 and 61 request port 6, at low and at high priority: inputs 1 and 2 at low, 3 and 4 at high.
fn contention(rt: &impl Print) -> Result<(), Failure> {
    let mut bench = Bench::new();
    bench.write_row(60, 0x20000040)?;
    bench.write_row(61, 0x60000040)?;
    bench.put_all(1, &[60, 81, 256])?;
    bench.put_all(2, &[60, 82, 256])?;
    bench.put_all(3, &[61, 83, 256])?;
    bench.put_all(4, &[61, 84, 256])?;
    bench.run(rt, "contention", 30)
}

fn main(rt: HostRuntime) -> Result<(), Failure> {
    from_one_input(&rt, "routed", 1, &[3, 65, 256], 10)?;
    from_one_input(&rt, "address error", 1, &[11, 256], 10)?;
    group(&rt)?;
    from_one_input(&rt, "to itself", 5, &[5, 68, 257], 10)?;
    // A packet to an invalid row is spilt through its end, and the next goes on.
    from_one_input(&rt, "spilt", 2, &[200, 1, 256, 7, 69, 256], 20)?;
    rewritten(&rt)?;
    contention(&rt)
}
