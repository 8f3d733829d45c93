// Runs the intake near its edges: refusals 1 to 7, New and Same, and writes a line for each call.
#![tactic(auto)]

use intake::{Delivered, Intake, Opened};
use refusal::Refusal;
use std::io;

const PIECE: [u8; 512] = [7; 512];

fn say_open(rt: &impl Print, opened: Result<Opened, Refusal>) -> io::Result<()> {
    match opened {
        Ok(opened) => println!(rt; "open {}", opened.blocks),
        Err(refusal) => println!(rt; "{refusal}"),
    }
}

fn say_delivery(rt: &impl Print, delivered: Result<Delivered, Refusal>) -> io::Result<()> {
    match delivered {
        Ok(Delivered::New(count)) => println!(rt; "new {count}"),
        Ok(Delivered::Same(count)) => println!(rt; "same {count}"),
        Err(refusal) => println!(rt; "{refusal}"),
    }
}

// The buffers, which each call takes as the one before left them.
#[derive(Drop)]
struct Buffers {
    image: [u8; 32768],
    map: [u64; 2],
}

impl Buffers {
    fn open(&mut self, rt: &impl Print, len: u64) -> io::Result<()> {
        say_open(rt, intake::open(len, &self.image, &mut self.map))
    }

    fn deliver(&mut self, rt: &impl Print, len: u64, block: u64, piece: &[u8]) -> io::Result<()> {
        let file = Intake::new(len);
        say_delivery(
            rt,
            intake::deliver(file, &mut self.image, &mut self.map, block, piece),
        )
    }

    // Refusal 3 of an opening.
    fn open_without_map(&mut self, rt: &impl Print) -> io::Result<()> {
        say_open(rt, intake::open(512, &self.image, &mut []))
    }

    // Refusal 3 of a delivery.
    fn deliver_without_map(&mut self, rt: &impl Print) -> io::Result<()> {
        let file = Intake::new(512);
        say_delivery(
            rt,
            intake::deliver(file, &mut self.image, &mut [], 0, &PIECE),
        )
    }

    // One block: refusals 1 and 2 of an opening, New, Same, and refusals 5 to 7.
    fn one_block(&mut self, rt: &impl Print) -> io::Result<()> {
        for len in [0, 268_435_968, 268_435_456, 512] {
            self.open(rt, len)?;
        }
        for block in [0, 0, 1, 18_446_744_073_709_551_615] {
            self.deliver(rt, 512, block, &PIECE)?;
        }
        self.deliver(rt, 512, 0, &[9; 512])?;
        self.deliver(rt, 512, 0, &[7; 511])
    }

    // Refusals 1 to 4 of a delivery.
    fn refused(&mut self, rt: &impl Print) -> io::Result<()> {
        self.deliver(rt, 0, 0, &PIECE)?;
        self.deliver(rt, 65_536, 0, &PIECE)?;
        self.deliver_without_map(rt)?;
        self.map[0] = 3;
        self.deliver(rt, 512, 0, &PIECE)
    }

    // 64 blocks: one word of the map is in use, with no spare bit, and the other stays. Block 0 has the piece's bytes since the
    // first file.
    fn one_word(&mut self, rt: &impl Print) -> io::Result<()> {
        self.open(rt, 32_768)?;
        self.deliver(rt, 32_768, 63, &PIECE)?;
        self.deliver(rt, 32_768, 64, &PIECE)?;
        println!(rt; "word {}", self.map[0])?;
        println!(rt; "word {}", self.map[1])?;
        self.map[0] = 18_446_744_073_709_551_615;
        self.deliver(rt, 32_768, 0, &PIECE)
    }
}

fn main(rt: HostRuntime) -> io::Result<()> {
    let mut buffers = Buffers {
        image: [0; 32768],
        map: [0, 5],
    };
    buffers.one_block(&rt)?;
    buffers.open_without_map(&rt)?;
    buffers.refused(&rt)?;
    buffers.one_word(&rt)
}
