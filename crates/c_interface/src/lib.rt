// The C interface of exports, over numbers and slices: opening, delivery, packets, the three questions, and reading from a list. Each
// function makes one call of the library and replies to its answer (crate c_replies).
#![tactic(auto)]

ghost use Rattle.std.specs.Prelude.{◌≡◌};
ghost use Rattle.intake.specs.Open.{opening};
ghost use Rattle.intake.specs.Memory.{memory};
ghost use Rattle.intake.specs.Deliver.{delivery};
ghost use Rattle.intake.specs.Packet.{packet};
ghost use Rattle.export.specs.Rows.{ask_rows};
ghost use Rattle.export.specs.Record.{ask_record};
ghost use Rattle.export.specs.Text.{ask_text};
ghost use Rattle.export.specs.FromList.{ask_record_in, ask_text_in};
ghost use Rattle.c_reply.specs.Reply.{reply_to, Replied};
ghost use Rattle.c_replies.specs.Replies.{open_reply, deliver_reply, packet_reply, walk_reply, record_reply, text_reply};

use intake::{Intake, Memory};

// Opens an intake for a file of len bytes.
#[unsafe(no_mangle)]
pub extern "C" fn sarvoltig_open(len: u64, image: &[u8], map: &mut [u64], res: &mut [u64]) -> u32
    ensures replied { Replied (reply_to open_reply (opening len image.now map.old).answer) result
        res.old res.new }
    ensures map_after { map.new ≡ (opening len image.now map.old).map }
{
    c_replies::reply(intake::open(len, image, map), res)
}

// Delivers a block to an intake of a file of len bytes.
#[unsafe(no_mangle)]
pub extern "C" fn sarvoltig_deliver(
    len: u64,
    image: &mut [u8],
    map: &mut [u64],
    block: u64,
    piece: &[u8],
    res: &mut [u64],
) -> u32
    ensures replied { Replied (reply_to deliver_reply (delivery len (memory image.old map.old) block piece.now).answer) result
        res.old res.new }
    ensures memory_after { memory image.new map.new ≡
        (delivery len (memory image.old map.old) block piece.now).memory }
{
    c_replies::reply(
        intake::deliver(Intake::new(len), image, map, block, piece),
        res,
    )
}

// Delivers a packet of blocks to an intake of a file of len bytes.
#[unsafe(no_mangle)]
pub extern "C" fn sarvoltig_packet(
    len: u64,
    image: &mut [u8],
    map: &mut [u64],
    blocks: &[u64],
    pieces: &[u8],
    codes: &mut [u32],
    res: &mut [u64],
) -> u32
    ensures replied { Replied (reply_to packet_reply (packet len (memory image.old map.old)
        blocks.now pieces.now codes.old).answer) result res.old res.new }
    ensures memory_after { memory image.new map.new ≡ (packet len (memory image.old map.old)
        blocks.now pieces.now codes.old).memory }
    ensures codes_after { codes.new ≡ (packet len (memory image.old map.old)
        blocks.now pieces.now codes.old).results }
{
    c_replies::reply(
        intake::deliver_packet(Intake::new(len), image, map, blocks, pieces, codes),
        res,
    )
}

// Asks for all rows of a table.
#[unsafe(no_mangle)]
pub extern "C" fn sarvoltig_rows(
    len: u64,
    image: &[u8],
    map: &[u64],
    table: u32,
    list: &mut [u32],
    res: &mut [u64],
) -> u32
    ensures replied { Replied (reply_to walk_reply (ask_rows len (memory image.now map.now) table list.old).answer) result
        res.old res.new }
    ensures list_after { list.new ≡ (ask_rows len (memory image.now map.now) table list.old).list }
{
    let memory = Memory { image, map };
    c_replies::reply(export::rows(Intake::new(len), memory, table, list), res)
}

// Asks for record k of a table.
#[unsafe(no_mangle)]
pub extern "C" fn sarvoltig_record(
    len: u64,
    image: &[u8],
    map: &[u64],
    table: u32,
    k: u64,
    res: &mut [u64],
) -> u32
    ensures { Replied (reply_to record_reply (ask_record len (memory image.now map.now) table k)) result
        res.old res.new }
{
    let memory = Memory { image, map };
    c_replies::reply(
        export::record(Intake::new(len), memory, table, k as usize),
        res,
    )
}

// Asks for the record of the row that element i of a list names.
#[unsafe(no_mangle)]
pub extern "C" fn sarvoltig_record_in(
    len: u64,
    image: &[u8],
    map: &[u64],
    table: u32,
    list: &[u32],
    i: u64,
    res: &mut [u64],
) -> u32
    ensures { Replied (reply_to record_reply (ask_record_in len (memory image.now map.now) table list.now i)) result
        res.old res.new }
{
    let memory = Memory { image, map };
    c_replies::reply(
        export::record_in(Intake::new(len), memory, table, list, i as usize),
        res,
    )
}

// Asks for a string slot of record k of a table.
#[unsafe(no_mangle)]
pub extern "C" fn sarvoltig_text(
    len: u64,
    image: &[u8],
    map: &[u64],
    table: u32,
    k: u64,
    slot: u64,
    res: &mut [u64],
) -> u32
    ensures { Replied (reply_to text_reply (ask_text len (memory image.now map.now) table k slot)) result
        res.old res.new }
{
    let memory = Memory { image, map };
    c_replies::reply(
        export::text(Intake::new(len), memory, table, k as usize, slot as usize),
        res,
    )
}

// Asks for a string slot of the row that element i of a list names.
#[unsafe(no_mangle)]
pub extern "C" fn sarvoltig_text_in(
    len: u64,
    image: &[u8],
    map: &[u64],
    table: u32,
    list: &[u32],
    i: u64,
    slot: u64,
    res: &mut [u64],
) -> u32
    ensures { Replied (reply_to text_reply (ask_text_in len (memory image.now map.now) table list.now i slot)) result
        res.old res.new }
{
    let memory = Memory { image, map };
    c_replies::reply(
        export::text_in(
            Intake::new(len),
            memory,
            table,
            list,
            i as usize,
            slot as usize,
        ),
        res,
    )
}
