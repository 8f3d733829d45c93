// The desk program: commands from standard input, answers on standard output.
#![tactic(auto)]

use std::io;

fn main(rt: HostRuntime) -> io::Result<()> {
    let mut image = [0u8; 32768];
    let mut map = [0u64; 1];
    let mut list = [0u32; 1024];
    desk_commands::run(
        &mut rt.stdin(),
        &mut rt.stdout(),
        &mut image,
        &mut map,
        &mut list,
    )
}
