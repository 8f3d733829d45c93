// Runs packets to a file of two blocks near their edges, and writes a line for each call and each result.
#![tactic(auto)]

use intake::Intake;
use refusal::{Fault, Refusal};
use std::io;

// The bytes of four blocks, and of one that differs from each of them.
const PIECES: [u8; 2048] = [7; 2048];

const OTHER: [u8; 512] = [9; 512];

fn say_refused(rt: &impl Print, refusal: Refusal) -> io::Result<()> {
    let fault = Fault::from(refusal);
    println!(rt; "{refusal}")?;
    println!(rt; "carries {}", fault.value)?;
    println!(rt; "entry {}", fault.entry)
}

fn say_results(rt: &impl Print, results: &[u32]) -> io::Result<()> {
    for res in results {
        println!(rt; "result {res}")?;
    }
    Ok(())
}

// The buffers, which each call takes as the one before left them.
#[derive(Drop)]
struct Buffers {
    image: [u8; 1024],
    map: [u64; 1],
}

impl Buffers {
    fn open(&mut self, rt: &impl Print) -> io::Result<()> {
        match intake::open(1024, &self.image, &mut self.map) {
            Ok(opened) => println!(rt; "open {}", opened.blocks),
            Err(refusal) => say_refused(rt, refusal),
        }
    }

    fn packet(
        &mut self,
        rt: &impl Print,
        blocks: &[u64],
        pieces: &[u8],
        results: &mut [u32],
    ) -> io::Result<()> {
        let file = Intake::new(1024);
        let (image, map) = (&mut self.image, &mut self.map);
        match intake::deliver_packet(file, image, map, blocks, pieces, results) {
            Ok(count) => println!(rt; "held {count}")?,
            Err(refusal) => say_refused(rt, refusal)?,
        }
        say_results(rt, results)
    }

    // New, New, Same and 5, with a longer list, then 7.
    fn taken(&mut self, rt: &impl Print) -> io::Result<()> {
        let mut results = [9u32; 5];
        self.open(rt)?;
        self.packet(rt, &[1, 0, 1, 2], &PIECES, &mut results)?;
        self.packet(rt, &[0], &OTHER, &mut results)
    }

    // No block, without bytes and with bytes; then 6 before 17.
    fn sizes(&mut self, rt: &impl Print) -> io::Result<()> {
        let mut none = [0u32; 0];
        let mut results = [9u32; 3];
        self.packet(rt, &[], &[], &mut none)?;
        self.packet(rt, &[], &OTHER, &mut results)?;
        self.packet(rt, &[0, 1, 2], &PIECES, &mut none)
    }

    // 17, and with a spare bit 4 before 6.
    fn refused(&mut self, rt: &impl Print) -> io::Result<()> {
        let mut results = [9u32; 3];
        self.packet(rt, &[0, 1, 2, 3], &PIECES, &mut results)?;
        self.map[0] = 7;
        self.packet(rt, &[0], &[], &mut results)
    }
}

fn main(rt: HostRuntime) -> io::Result<()> {
    let mut buffers = Buffers {
        image: [0; 1024],
        map: [0; 1],
    };
    buffers.taken(&rt)?;
    buffers.sizes(&rt)?;
    buffers.refused(&rt)
}
