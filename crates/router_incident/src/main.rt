// The incident, replayed call by call. A is at port 1 and B at port 2, C comes to port 1 after A, and all of them send to
// port 3. It writes what each run told, what is still held, and what output 3 holds.
#![tactic(auto)]

use router_ports::{Mode, PORTS, STORES, WORDS, Words};
use router_table::{ROWS, Table};
use std::{fmt, io};
use vocabulary::Refusal;

// The smallest stores that a router may have.
const PLACES: usize = 9;

const AREA: usize = STORES * PLACES;

// Why the program ends early: a call is refused, or a line cannot be written. The demo has its own: a reader who starts from
// one program has all of it there.
#[derive(Drop)]
enum Failure {
    Refused(Refusal),
    Unwritten(io::Error),
}

// By hand, so that what `main` ends with reads as the error itself.
impl fmt::Debug for Failure {
    fn fmt<W: fmt::Write>(&self, f: &mut fmt::Formatter<W>) -> fmt::Result {
        match self {
            Failure::Refused(refusal) => refusal.fmt(f),
            Failure::Unwritten(error) => error.fmt(f),
        }
    }
}

impl From<Refusal> for Failure {
    fn from(refusal: Refusal) -> Failure {
        Failure::Refused(refusal)
    }
}

impl From<io::Error> for Failure {
    fn from(error: io::Error) -> Failure {
        Failure::Unwritten(error)
    }
}

// A set of ports, bit p for port p.
#[derive(Clone, Copy)]
struct Ports(u16);

impl fmt::Display for Ports {
    fn fmt<W: fmt::Write>(&self, f: &mut fmt::Formatter<W>) -> fmt::Result {
        if self.0 == 0 {
            return write!(f, " none");
        }
        for port in 0..PORTS {
            if (self.0 >> port) % 2 == 1 {
                write!(f, " {port}")?;
            }
        }
        Ok(())
    }
}

// What an input does, with the ports that it waits for or its output.
#[derive(Clone, Copy)]
struct Input(Mode);

impl fmt::Display for Input {
    fn fmt<W: fmt::Write>(&self, f: &mut fmt::Formatter<W>) -> fmt::Result {
        match self.0 {
            Mode::Idle => write!(f, "idle"),
            Mode::Waiting(wanted) => write!(f, "waiting for{}", Ports(wanted.ports)),
            Mode::Routed(output) => write!(f, "routed to {output}"),
            Mode::Spilling => write!(f, "spilling"),
        }
    }
}

// Which input an output is held by.
#[derive(Clone, Copy)]
struct Output(Option<usize>);

impl fmt::Display for Output {
    fn fmt<W: fmt::Write>(&self, f: &mut fmt::Formatter<W>) -> fmt::Result {
        match self.0 {
            Some(input) => write!(f, "held by {input}"),
            None => write!(f, "free"),
        }
    }
}

// A router with its stores and its table, fresh at first. The demo has its own, as it has its own `Failure`.
#[derive(Clone, Copy)]
struct Bench {
    words: Words,
    area: [u16; AREA],
    table: Table,
}

impl Bench {
    fn new() -> Bench {
        let mut bench = Bench {
            words: [0; WORDS],
            area: [0; AREA],
            table: [0; ROWS],
        };
        router::fresh(&mut bench.words);
        router_table::fresh(&mut bench.table);
        bench
    }

    // N-Chars to an input, one after the other.
    fn put_all(&mut self, port: u32, nchars: &[u32]) -> Result<(), Refusal> {
        for nchar in nchars {
            router::put(&mut self.words, &mut self.area, port, *nchar)?;
        }
        Ok(())
    }

    fn run(&mut self, rt: &impl Print) -> Result<(), Failure> {
        let ran = router::run(&mut self.words, &mut self.area, &self.table, 20)?;
        println!(rt; "  run: rounds {}, moved {}", ran.rounds, ran.moved)?;
        Ok(())
    }

    // What is still held through a port, and which inputs have N-Chars that no round has moved.
    fn ask(&self, rt: &impl Print, port: u32) -> Result<(), Failure> {
        let held = router::still_held(&self.words, port)?;
        print!(rt; "  port {port}:")?;
        if held.nothing {
            print!(rt; " nothing held;")?;
        } else {
            print!(rt; " input {}, {} waiting;", Input(held.mode), held.unmoved)?;
            print!(rt;
                " output {}, {} waiting, wanted by{};",
                Output(held.owner),
                held.untaken,
                Ports(held.wanted)
            )?;
        }
        println!(rt; " unread{}", Ports(held.unread))?;
        Ok(())
    }

    // Takes what output 3 holds: at most the nine places of its store.
    fn take_out(&mut self, rt: &impl Print) -> io::Result<()> {
        print!(rt; "  output 3:")?;
        for _ in 0..PLACES {
            if let Ok(nchar) = router::take(&mut self.words, &self.area, 3) {
                print!(rt; " {nchar}")?;
            }
        }
        println!(rt)
    }
}

fn a_leaves(rt: &impl Print, bench: &mut Bench) -> Result<(), Failure> {
    println!(rt; "A at port 1 puts 3 11 12: a packet to port 3, its end to come")?;
    bench.put_all(1, &[3, 11, 12])?;
    bench.run(rt)?;
    println!(rt; "A logs out, and the console asks")?;
    bench.ask(rt, 1)?;
    bench.ask(rt, 3)
}

fn b_waits(rt: &impl Print, bench: &mut Bench) -> Result<(), Failure> {
    println!(rt; "B at port 2 puts 3 21 22 256: a packet to port 3")?;
    bench.put_all(2, &[3, 21, 22, 256])?;
    bench.run(rt)?;
    bench.ask(rt, 2)?;
    bench.ask(rt, 3)
}

// Had nobody asked, what C puts would belong to A's packet; B's would still be whole.
fn unasked(rt: &impl Print, bench: &mut Bench) -> Result<(), Failure> {
    println!(rt; "Had C come to port 1 now and put 3 31 256")?;
    bench.put_all(1, &[3, 31, 256])?;
    bench.run(rt)?;
    bench.take_out(rt)?;
    Ok(())
}

fn console_ends(rt: &impl Print, bench: &mut Bench) -> Result<(), Failure> {
    println!(rt; "The console waits")?;
    bench.run(rt)?;
    bench.ask(rt, 1)?;
    println!(rt; "The console puts the end that A's packet lacks to input 1: 257")?;
    bench.put_all(1, &[257])?;
    bench.run(rt)?;
    bench.ask(rt, 1)?;
    bench.take_out(rt)?;
    bench.ask(rt, 3)
}

fn c_sends(rt: &impl Print, bench: &mut Bench) -> Result<(), Failure> {
    println!(rt; "C at port 1 puts 3 31 256")?;
    bench.put_all(1, &[3, 31, 256])?;
    bench.run(rt)?;
    bench.take_out(rt)?;
    bench.ask(rt, 1)?;
    bench.ask(rt, 3)
}

fn main(rt: HostRuntime) -> Result<(), Failure> {
    let mut bench = Bench::new();
    a_leaves(&rt, &mut bench)?;
    b_waits(&rt, &mut bench)?;
    let mut other = bench;
    unasked(&rt, &mut other)?;
    console_ends(&rt, &mut bench)?;
    c_sends(&rt, &mut bench)
}
