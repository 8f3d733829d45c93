// Taking in an export by blocks: opening, delivery, packets of blocks, and which blocks are held (rules 1.5, 1.6, 1.10 to 1.16 and 1.19 to 1.24).
#![tactic(auto)]

ghost use Rattle.std.specs.Prelude.{◌≡◌, ◌+◌, ◌*◌, ◌/◌, ◌<◌, ◌≤◌, length, eqb};
ghost use Rattle.lists.specs.Write.{written};
ghost use Rattle.format.specs.Size.{block_size};
ghost use Rattle.refusal.specs.Answer.{given, answer_of};
ghost use Rattle.bitmap.specs.Count.{held_count};
ghost use Rattle.intake.specs.Length.{allowed_length};
ghost use Rattle.intake.specs.Check.{check_lengths, check_call};
ghost use Rattle.intake.specs.Open.{opening_of, opening};
ghost use Rattle.intake.specs.Memory.{memory, memory_of};
ghost use Rattle.intake.specs.Deliver.{stored, verdict, judged, taken, taken_of, outcome_of, delivery};
ghost use Rattle.intake.specs.Packet.{paired, check_sizes, after_each, results_of_each, packet_outcome_of, packet};
ghost use Rattle.intake.specs.Missing.{held, next_missing, missing_of};
ghost use Rattle.intake.specs.Sound.{Sound};
ghost use Rattle.intake.specs.Private.{verdict_of, judged_of, judgement_of, result_of_verdict, HeldRun};

use format::Block;
use refusal::{Fault, Refusal};

// An opened intake: what every later call takes, with the same image and map.
#[derive(Clone, Copy, Debug, PartialEq, Eq)]
pub struct Intake {
    pub len: u64,
}

impl Intake {
    // The longest file.
    pub const LONGEST: u64 = 268_435_456;

    pub fn new(len: u64) -> Self
        ensures { result.len ≡ len }
    {
        Intake { len }
    }
}

// The two buffers of a file, for calls that only read them.
#[derive(Clone, Copy)]
pub struct Memory<'a> {
    pub image: &'a [u8],
    pub map: &'a [u64],
}

// An intake with its buffers, past refusals 1 to 4.
#[derive(Clone, Copy)]
pub struct Checked<'a> {
    pub intake: Intake,
    pub memory: Memory<'a>,
    pub ghost sound: { Sound intake.len (memory_of memory) },
}

// What an opening gives: the intake, and how many blocks the file has.
#[derive(Clone, Copy, Debug, PartialEq, Eq)]
pub struct Opened {
    pub intake: Intake,
    pub blocks: u64,
}

// What a delivery gives: whether the block is new, with the held count after it.
#[derive(Clone, Copy, Debug, PartialEq, Eq)]
pub enum Delivered {
    New(u64),
    Same(u64),
}

impl Delivered {
    // A block's result in a packet. That of a refused one is the refusal's number.
    pub const NEW: u32 = 0;

    pub const SAME: u32 = 64;
}

// The verdict on a delivery, before anything is counted.
#[derive(Clone, Copy, Debug, PartialEq, Eq)]
enum Judged {
    New,
    Same,
}

// Whether a file may have the length.
#[tactic(auto, using(std::proofs::lemmas::Bool::Decides::nat_tests), unfolding(crate::specs::Length::allowed_length))]
fn allowed(len: u64) -> bool
    ensures { result ≡ allowed_length len }
{
    let size = Block::SIZE as u64;
    len % size == 0 && (size..=Intake::LONGEST).contains(&len)
}

// Refusals 1 to 3.
#[tactic(auto, using(lists::proofs::Choice::tests), unfolding(crate::specs::Check::check_lengths))]
fn check_lengths(len: u64, memory: Memory) -> Result<(), Refusal>
    ensures { answer_of result ≡ check_lengths len memory.entry.image.now memory.entry.map.now (given tt) }
{
    if !allowed(len) {
        return Err(Refusal::Length);
    }
    if memory.image.len() < (len as usize) {
        return Err(Refusal::ImageShort);
    }
    if memory.map.len() < (bitmap::word_count(len) as usize) {
        return Err(Refusal::MapShort);
    }
    Ok(())
}

// Refusals 1 to 4, with which every call after the opening begins that can be refused.
#[tactic(auto, using(lists::proofs::Choice::tests), unfolding(crate::specs::Check::check_call, crate::specs::Check::check_lengths))]
pub fn check(intake: Intake, memory: Memory) -> Result<(), Refusal>
    ensures { answer_of result ≡ check_call intake.len (memory_of memory.entry) (given tt) }
{
    let len = intake.len;
    check_lengths(len, memory)?;
    if bitmap::has_spare_bit(len, memory.map) {
        return Err(Refusal::MapSpare);
    }
    Ok(())
}

// Opens an intake: clears the map's words in use, and leaves the image and the other words.
pub fn open(len: u64, image: &[u8], map: &mut [u64]) -> Result<Opened, Refusal>
    ensures { opening_of result map.new ≡ opening len image.now map.old }
{
    check_lengths(len, Memory { image, map })?;
    map[..bitmap::word_count(len) as usize].fill(0);
    Ok(Opened {
        intake: Intake::new(len),
        blocks: bitmap::block_count(len),
    })
}

// The verdict on a delivery past refusals 1 to 4.
fn judge_block(file: Checked, block: u64, piece: &[u8]) -> Result<Judged, Refusal>
    ensures { judged_of result ≡ verdict file.entry.intake.len (memory_of file.entry.memory) block piece.now }
{
    if bitmap::block_count(file.intake.len) <= block {
        return Err(Refusal::BlockNumber);
    }
    if piece.len() != Block::SIZE {
        return Err(Refusal::PieceSize);
    }
    if !bitmap::has_bit(file.memory.map, block) {
        return Ok(Judged::New);
    }
    let start = (block as usize) * Block::SIZE;
    let end = start + Block::SIZE;
    if &file.memory.image[start..end] == piece {
        Ok(Judged::Same)
    } else {
        Err(Refusal::BlockDiffers)
    }
}

// Copies a slice over another of the same length: `copy_from_slice` would call `memmove`, which a caller of the C library
// need not have.
fn copy(into: &mut [u8], from: &[u8])
    requires { length into.old ≡ length from.now }
    ensures { into.new ≡ from.now }
{
    for i in 0..from.len() {
        into[i] = from[i];
    }
}

// Stores a block and sets its bit.
fn store(image: &mut [u8], map: &mut [u64], block: u64, piece: &[u8])
    requires { (length piece.now ≡ block_size) × (block * block_size + block_size ≤ length image.old)
        × (block / 64 < length map.old) }
    ensures { memory image.new map.new ≡ stored (memory image.old map.old) block piece.now }
{
    let start = (block as usize) * Block::SIZE;
    let end = start + Block::SIZE;
    copy(&mut image[start..end], piece);
    map[(block / 64) as usize] |= 1u64 << (block % 64);
}

// The verdict on a delivery past refusals 1 to 4: a new block is stored, and nothing else changes the image and the map.
fn take_block(
    intake: Intake,
    image: &mut [u8],
    map: &mut [u64],
    block: u64,
    piece: &[u8],
) -> Result<Judged, Refusal>
    requires { Sound intake.len (memory image.old map.old) }
    ensures { judgement_of result image.new map.new
        ≡ judged intake.len (memory image.old map.old) block piece.now }
{
    let memory = Memory { image, map };
    match judge_block(Checked { intake, memory }, block, piece)? {
        Judged::New => {
            store(image, map, block, piece);
            Ok(Judged::New)
        }
        Judged::Same => Ok(Judged::Same),
    }
}

// What a delivery gives, from its verdict, with the held count.
fn with_count(len: u64, map: &[u64], verdict: Judged) -> Delivered
    ensures { taken_of result ≡ taken (verdict_of verdict) (held_count len map.now) }
{
    let count = bitmap::held_count(len, map);
    match verdict {
        Judged::New => Delivered::New(count),
        Judged::Same => Delivered::Same(count),
    }
}

// Takes in a block, and counts the blocks held afterwards.
pub fn deliver(
    intake: Intake,
    image: &mut [u8],
    map: &mut [u64],
    block: u64,
    piece: &[u8],
) -> Result<Delivered, Refusal>
    ensures { outcome_of result image.new map.new
        ≡ delivery intake.len (memory image.old map.old) block piece.now }
{
    check(intake, Memory { image, map })?;
    let verdict = take_block(intake, image, map, block, piece)?;
    Ok(with_count(intake.len, map, verdict))
}

// A block's result in a packet.
fn result(verdict: Result<Judged, Refusal>) -> u32
    ensures { result ≡ result_of_verdict (judged_of verdict) }
{
    match verdict {
        Ok(Judged::New) => Delivered::NEW,
        Ok(Judged::Same) => Delivered::SAME,
        Err(refusal) => Fault::from(refusal).number,
    }
}

// Takes in each block of a packet, and writes its result to the list.
fn take_blocks(
    intake: Intake,
    image: &mut [u8],
    map: &mut [u64],
    blocks: &[u64],
    pieces: &[u8],
    results: &mut [u32],
)
    requires { Sound intake.len (memory image.old map.old) × (length pieces.now ≡ length blocks.now * block_size)
        × (length blocks.now ≤ length results.old) }
    ensures map_after { memory image.new map.new
        ≡ after_each intake.len (memory image.old map.old) (paired blocks.now pieces.now) }
    ensures results_after { results.new ≡ written results.old
        (results_of_each intake.len (memory image.old map.old) (paired blocks.now pieces.now)) }
{
    for (i, (block, piece)) in blocks
        .iter()
        .zip(pieces.chunks_exact(Block::SIZE))
        .enumerate()
    {
        let verdict = take_block(intake, image, map, *block, piece);
        results[i] = result(verdict);
    }
}

// Whether there are 512 bytes for each number of a packet.
fn sized(blocks: &[u64], pieces: &[u8]) -> bool
    ensures { result ≡ eqb (length pieces.now) (length blocks.now * block_size) }
{
    pieces.len() % Block::SIZE == 0 && pieces.len() / Block::SIZE == blocks.len()
}

// Refusals 6 and 17 of a packet.
#[tactic(auto, using(lists::proofs::Choice::tests), unfolding(crate::specs::Packet::check_sizes))]
fn check_sizes(blocks: &[u64], pieces: &[u8], results: &[u32]) -> Result<(), Refusal>
    ensures { answer_of result ≡ check_sizes blocks.now pieces.now results.now (given tt) }
{
    if !sized(blocks, pieces) {
        return Err(Refusal::PieceSize);
    }
    if results.len() < blocks.len() {
        return Err(Refusal::ListShort(blocks.len()));
    }
    Ok(())
}

// Refusals 1 to 4, 6 and 17, with which a packet begins.
#[tactic(auto, using(lists::proofs::Choice::tests), unfolding(crate::specs::Check::check_call, crate::specs::Check::check_lengths))]
fn check_packet(
    intake: Intake,
    memory: Memory,
    blocks: &[u64],
    pieces: &[u8],
    results: &[u32],
) -> Result<(), Refusal>
    ensures { answer_of result ≡ check_call intake.len (memory_of memory.entry)
        (check_sizes blocks.now pieces.now results.now (given tt)) }
{
    check(intake, memory)?;
    check_sizes(blocks, pieces, results)
}

// Takes in a packet of blocks, one for each number, their pieces end to end, and counts once. A refused block does not end it.
pub fn deliver_packet(
    intake: Intake,
    image: &mut [u8],
    map: &mut [u64],
    blocks: &[u64],
    pieces: &[u8],
    results: &mut [u32],
) -> Result<u64, Refusal>
    ensures { packet_outcome_of result image.new map.new results.new
        ≡ packet intake.len (memory image.old map.old) blocks.now pieces.now results.old }
{
    check_packet(intake, Memory { image, map }, blocks, pieces, results)?;
    take_blocks(intake, image, map, blocks, pieces, results);
    Ok(bitmap::held_count(intake.len, map))
}

// Whether the file has a block, and it is held.
#[tactic(auto, using(lists::proofs::Choice::tests), unfolding(crate::specs::Missing::held))]
pub fn holds(intake: Intake, map: &[u64], block: u64) -> bool
    ensures { result ≡ held intake.len map.now block }
{
    block < bitmap::block_count(intake.len) && bitmap::has_bit(map, block)
}

// How many bits from a block's on are known to be ones: the rest of its word where the word has no zero, else its own or none.
fn held_run(map: &[u64], block: u64) -> u64
    ensures { HeldRun map.now block result }
{
    if bitmap::word_at(map, block / 64) == u64::MAX {
        return 64 - block % 64;
    }
    u64::from(bitmap::has_bit(map, block))
}

// The first block from a number on that is not held.
pub fn next_missing(intake: Intake, map: &[u64], from: u64) -> Option<u64>
    ensures { missing_of result ≡ next_missing intake.len map.now from }
{
    let blocks = bitmap::block_count(intake.len);
    let mut block = from;
    while block < blocks {
        let run = held_run(map, block);
        if run == 0 {
            return Some(block);
        }
        block += run;
    }
    None
}
