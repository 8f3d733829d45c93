// The C interface for fetching an export: which blocks are held, which is missing, and what block 0 tells of the pages to fetch. Each
// function makes one call of the library and replies to its answer (crate c_replies).
#![tactic(auto)]

ghost use Rattle.std.specs.Prelude.{◌≡◌, cond};
ghost use Rattle.intake.specs.Memory.{memory};
ghost use Rattle.intake.specs.Missing.{held, next_missing};
ghost use Rattle.export.specs.Layout.{ask_layout, ask_bounds};
ghost use Rattle.c_reply.specs.Reply.{reply_to, Replied};
ghost use Rattle.c_replies.specs.Replies.{missing_reply, layout_reply, bounds_reply};

use intake::{Intake, Memory};

// Whether a file of len bytes has a block, and it is held: 1, or 0.
#[unsafe(no_mangle)]
pub extern "C" fn sarvoltig_holds(len: u64, map: &[u64], block: u64) -> u32
    ensures { result ≡ cond (held len map.now block) 1 0 }
{
    u32::from(intake::holds(Intake::new(len), map, block))
}

// Asks for the first block from a number on that is not held.
#[unsafe(no_mangle)]
pub extern "C" fn sarvoltig_missing(len: u64, map: &[u64], from: u64, res: &mut [u64]) -> u32
    ensures { Replied (missing_reply (next_missing len map.now from)) result res.old res.new }
{
    c_replies::reply_missing(intake::next_missing(Intake::new(len), map, from), res)
}

// Asks for page length and number of pages.
#[unsafe(no_mangle)]
pub extern "C" fn sarvoltig_layout(len: u64, image: &[u8], map: &[u64], res: &mut [u64]) -> u32
    ensures { Replied (reply_to layout_reply (ask_layout len (memory image.now map.now))) result
        res.old res.new }
{
    let memory = Memory { image, map };
    c_replies::reply(export::layout(Intake::new(len), memory), res)
}

// Asks for the first and the last page of a table.
#[unsafe(no_mangle)]
pub extern "C" fn sarvoltig_bounds(
    len: u64,
    image: &[u8],
    map: &[u64],
    table: u32,
    res: &mut [u64],
) -> u32
    ensures { Replied (reply_to bounds_reply (ask_bounds len (memory image.now map.now) table)) result
        res.old res.new }
{
    let memory = Memory { image, map };
    c_replies::reply(export::bounds(Intake::new(len), memory, table), res)
}
