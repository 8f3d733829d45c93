// Runs the desk program's commands over stored inputs: one for each argument, each as a run of its own; then a delivery cut at every place.
#![tactic(auto)]

use desk_steps::Command;
use std::io::Read;
use std::rt::{Env, Files};
use std::{env, fs, io};

// The buffers, which each run takes as the one before left them.
#[derive(Drop)]
struct Desk {
    image: [u8; 32768],
    map: [u64; 1],
    list: [u32; 1024],
}

impl Desk {
    // Runs an input without its first n bytes.
    fn run_rest<R: Files + Print + Eprint>(
        &mut self,
        rt: &R,
        path: &str,
        n: usize,
    ) -> io::Result<()> {
        match fs::open(rt, path) {
            Ok(mut file) => {
                skip(&mut file, n)?;
                desk_commands::run(
                    &mut file,
                    &mut io::writer(rt),
                    &mut self.image,
                    &mut self.map,
                    &mut self.list,
                )
            }
            Err(e) => eprintln!(rt; "{path}: {e}"),
        }
    }

    fn run_file<R: Files + Print + Eprint>(&mut self, rt: &R, path: &str) -> io::Result<()> {
        println!(rt; "{path}:")?;
        self.run_rest(rt, path, 0)
    }

    fn run_args<R: Env + Files + Print + Eprint + AllocGlobal>(
        &mut self,
        rt: &R,
    ) -> io::Result<()> {
        for path in env::args(rt)?.skip(1) {
            self.run_file(rt, &path)?;
        }
        Ok(())
    }

    // `cut_2` is a delivery without its last byte, and its bytes are all 2: without its first n it is a delivery cut elsewhere.
    fn run_cuts<R: Files + Print + Eprint>(&mut self, rt: &R) -> io::Result<()> {
        println!(rt; "cut_2:")?;
        for n in 0..Command::LONGEST {
            self.run_rest(rt, "cut_2", n)?;
        }
        Ok(())
    }
}

// Reads n bytes and drops them.
fn skip<R: Read>(input: &mut R, n: usize) -> io::Result<()> {
    io::copy(&mut input.take(n as u64), &mut io::sink())?;
    Ok(())
}

fn main(rt: HostRuntime) -> io::Result<()> {
    let mut desk = Desk {
        image: [0; 32768],
        map: [0; 1],
        list: [0; 1024],
    };
    desk.run_args(&rt)?;
    desk.run_cuts(&rt)
}
