// Two link ends joined by wires: both come to Run, a packet goes over, a fault takes one end down in
// mid-packet, and the far host finds the packet closed by an EEP. Each line says what was done and what
// the two ends answered.
#![tactic(auto)]

use link::calls;
use link::fields::{STATE, TIME_WORDS, TimeWords, WORDS, Words};
use std::{fmt, io};
use vocabulary::Refusal;

// Two faults, by the number of the decoder's report, as `calls::fault` takes them.
const PARITY_ERROR: u32 = 5;

const DISCONNECT: u32 = 7;

// What a host is to put: a whole packet, and the beginning of another.
const N_CHARS: [u32; 3] = [65, 256, 66];

// The refusal's number, 0 for none, and what was answered, 0 where it is refused.
fn said(answered: Result<u32, Refusal>) -> (u32, u32) {
    match answered {
        Ok(answer) => (0, answer),
        Err(refusal) => (u32::from(refusal), 0),
    }
}

// One end as its host keeps it: the words of its state, and the places of its two stores.
#[derive(Clone, Copy)]
struct End {
    words: Words,
    rx: [u16; 16],
    tx: [u16; 16],
}

// A refusal is said where the lines say one. The other calls are refused nothing here, and their answers are let go.
impl End {
    fn new() -> End {
        End {
            words: [0; WORDS],
            rx: [0; 16],
            tx: [0; 16],
        }
    }

    // A fresh end with LinkStart on.
    fn start(&mut self) {
        calls::fresh(&mut self.words);
        let _ = calls::control(&mut self.words, &mut self.rx, &self.tx, 0, 1, 0);
    }

    fn ticks(&mut self, count: u32) {
        for _ in 0..count {
            let _ = calls::tick(&mut self.words, &mut self.rx, &self.tx);
        }
    }

    // The token that is due goes to the other end; `time` is the bench's one time record.
    fn pass(&mut self, other: &mut End, time: &mut TimeWords) {
        let sent = calls::send(&mut self.words, &mut self.rx, &self.tx);
        if let Ok(Some(token)) = sent.map(|sent| sent.token) {
            let kind = u32::from(vocabulary::kind(token));
            let value = u32::from(vocabulary::value(token));
            let _ = calls::receive(
                &mut other.words,
                &mut other.rx,
                &other.tx,
                time,
                kind,
                value,
            );
        }
    }

    fn put_all(&mut self, rt: &impl Print) -> io::Result<()> {
        for n in N_CHARS {
            let (refusal, discarded) = said(calls::put(&mut self.words, &mut self.tx, n));
            println!(rt; "put {n}: refusal {refusal}, discarded {discarded}")?;
        }
        Ok(())
    }

    fn take(&mut self, rt: &impl Print) -> io::Result<()> {
        let (refusal, n) = said(calls::take(&mut self.words, &self.rx).map(u32::from));
        println!(rt; "take: refusal {refusal}, N-Char {n}")
    }

    fn fault(&mut self, kind: u32) {
        let _ = calls::fault(&mut self.words, &mut self.rx, &self.tx, kind);
    }
}

// The two ends, and the time record that they share.
#[derive(Drop)]
struct Bench {
    near: End,
    far: End,
    time: TimeWords,
}

impl fmt::Display for Bench {
    fn fmt<W: fmt::Write>(&self, f: &mut fmt::Formatter<W>) -> fmt::Result {
        let near = self.near.words[STATE];
        let far = self.far.words[STATE];
        write!(f, "near in state {near}, far in state {far}")
    }
}

impl Bench {
    fn new() -> Bench {
        let mut time = [0; TIME_WORDS];
        calls::fresh_time(&mut time);
        Bench {
            near: End::new(),
            far: End::new(),
            time,
        }
    }

    // Both ends from fresh to Started.
    fn start(&mut self, rt: &impl Print) -> io::Result<()> {
        self.near.start();
        self.far.start();
        println!(rt; "fresh, LinkStart: {self}")?;
        self.near.ticks(193);
        self.far.ticks(193);
        println!(rt; "193 ticks: {self}")
    }

    // `count` tokens each way.
    fn exchange(&mut self, rt: &impl Print, count: u32) -> io::Result<()> {
        for _ in 0..count {
            self.near.pass(&mut self.far, &mut self.time);
            self.far.pass(&mut self.near, &mut self.time);
        }
        println!(rt; "{count} tokens each way: {self}")
    }

    fn packet_over(&mut self, rt: &impl Print) -> io::Result<()> {
        self.near.put_all(rt)?;
        self.exchange(rt, 6)?;
        for _ in N_CHARS {
            self.far.take(rt)?;
        }
        Ok(())
    }

    // The far end goes down in mid-packet, and its host finds the packet closed. So does the near end, and
    // the rest of its packet is discarded through the end.
    fn both_fail(&mut self, rt: &impl Print) -> io::Result<()> {
        self.far.fault(PARITY_ERROR);
        println!(rt; "a parity error at the far end")?;
        self.far.take(rt)?;
        self.near.fault(DISCONNECT);
        println!(rt; "a disconnect at the near end")?;
        self.near.put_all(rt)?;
        println!(rt; "at the end: {self}")
    }
}

fn main(rt: HostRuntime) -> io::Result<()> {
    let mut bench = Bench::new();
    bench.start(&rt)?;
    bench.exchange(&rt, 4)?;
    bench.packet_over(&rt)?;
    bench.both_fail(&rt)
}
