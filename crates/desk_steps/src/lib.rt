// The desk program's commands: what the bytes of a command say, and what each command does and answers.
#![tactic(auto)]

ghost use Rattle.std.specs.Prelude.{◌≡◌, Some, drop};
ghost use Rattle.lists.specs.Alias.{Places};
ghost use Rattle.desk_steps.specs.Command.{open_file, deliver_block, ask_table, number_size, body_size, decoded, command_of, decoded_of};
ghost use Rattle.desk_steps.specs.State.{state};
ghost use Rattle.desk_steps.specs.Step.{rows_in, line_of, step_outcome, reply_of, step, stepped_of, DeliveredLine, WalkedLine};
ghost use Rattle.desk_steps.specs.Text.{reply_text, error_text, error_line_text};

use chain::Walked;
use format::Block;
use intake::{Delivered, Intake, Memory};
use refusal::Refusal;
use std::error::Error;
use std::fmt;

// A command. A delivery's piece stands in the command's body, behind the block's number.
#[derive(Clone, Copy, Debug, PartialEq, Eq)]
pub enum Command {
    Open(u64),
    Deliver(u64),
    Ask(u32),
}

// Why bytes are no command: a kind that there is not, or a body that is too short.
#[derive(Clone, Copy, Debug, PartialEq, Eq)]
pub enum DecodeError {
    Unknown,
    Cut,
}

impl fmt::Display for DecodeError {
    ghost output = { λ error. Some (error_text error) };

    fn fmt<W: fmt::Write>(&self, f: &mut fmt::Formatter<W>) -> fmt::Result {
        match *self {
            DecodeError::Unknown => write!(f, "kind"),
            DecodeError::Cut => write!(f, "cut"),
        }
    }
}

impl Error for DecodeError {}

// The whole line for bytes that are no command. It is one piece, so that no write follows one that may end the run.
#[derive(Clone, Copy, Debug, PartialEq, Eq)]
pub struct ErrorLine {
    pub error: DecodeError,
}

impl fmt::Display for ErrorLine {
    ghost output = { λ line. Some (error_line_text line.error) };

    fn fmt<W: fmt::Write>(&self, f: &mut fmt::Formatter<W>) -> fmt::Result {
        match self.error {
            DecodeError::Unknown => write!(f, "kind\n"),
            DecodeError::Cut => write!(f, "cut\n"),
        }
    }
}

// What a command answers where it is not refused, by the numbers of its line.
#[derive(Clone, Copy, Debug, PartialEq, Eq)]
pub enum Reply {
    Opened(u64),
    New(u64),
    Same(u64),
    Done { rows: usize, pages: u64 },
    Wait { page: u32, rows: usize, pages: u64 },
}

impl Reply {
    // How many rows it counts.
    pub fn rows(self) -> usize
        ensures { result ≡ rows_in (line_of self) }
    {
        match self {
            Reply::Opened(_) | Reply::New(_) | Reply::Same(_) => 0,
            Reply::Done { rows, .. } => rows,
            Reply::Wait { rows, .. } => rows,
        }
    }
}

impl From<Delivered> for Reply {
    ghost from_gives = { DeliveredLine };

    fn from(delivered: Delivered) -> Self {
        match delivered {
            Delivered::New(held) => Reply::New(held),
            Delivered::Same(held) => Reply::Same(held),
        }
    }
}

impl From<Walked> for Reply {
    ghost from_gives = { WalkedLine };

    fn from(walked: Walked) -> Self {
        match walked {
            Walked::Full { rows, pages } => Reply::Done { rows, pages },
            Walked::Waiting { page, rows, pages } => Reply::Wait { page, rows, pages },
        }
    }
}

impl fmt::Display for Reply {
    ghost output = { λ reply. Some (reply_text reply) };

    fn fmt<W: fmt::Write>(&self, f: &mut fmt::Formatter<W>) -> fmt::Result {
        match *self {
            Reply::Opened(blocks) => write!(f, "open {blocks}"),
            Reply::New(held) => write!(f, "new {held}"),
            Reply::Same(held) => write!(f, "same {held}"),
            Reply::Done { rows, pages } => {
                write!(f, "done")?;
                write!(f, " rows {rows} pages {pages}")
            }
            Reply::Wait { page, rows, pages } => {
                write!(f, "wait page {page} rows {rows} pages {pages}")
            }
        }
    }
}

// A command's answer, and the intake that the next command takes.
#[derive(Clone, Copy, Debug, PartialEq, Eq)]
pub struct Stepped {
    pub reply: Result<Reply, Refusal>,
    pub intake: Intake,
}

impl Command {
    // Bytes of a number in a body.
    pub const NUMBER: usize = 4;
    // Bytes of the longest body, a delivery's.
    pub const LONGEST: usize = Command::NUMBER + Block::SIZE;
}

// The bytes of a body, 0 for a kind that there is not.
#[tactic(auto, unfolding(crate::specs::Command::body_size))]
pub fn body_size(kind: u8) -> usize
    ensures { result ≡ body_size kind }
{
    match kind {
        1 => Command::NUMBER,
        2 => Command::LONGEST,
        3 => 1,
        _ => 0,
    }
}

// What a kind and the bytes of its body say.
#[tactic(auto, using(lists::proofs::Choice::tests), unfolding(crate::specs::Command::decoded))]
pub fn decode(kind: u8, body: &[u8]) -> Result<Command, DecodeError>
    ensures { decoded_of result body.now ≡ decoded kind body.now }
{
    if body.len() < body_size(kind) {
        return Err(DecodeError::Cut);
    }
    match kind {
        1 => Ok(Command::Open(u64::from(number::u32_at(body, 0)))),
        2 => Ok(Command::Deliver(u64::from(number::u32_at(body, 0)))),
        3 => Ok(Command::Ask(u32::from(number::byte_at(body, 0)))),
        _ => Err(DecodeError::Unknown),
    }
}

// The piece in a delivery's body.
fn piece(body: &[u8]) -> &[u8]
    ensures { result.now ≡ drop number_size body.now }
{
    &body[Command::NUMBER.min(body.len())..]
}

// Opens an intake. A refused opening keeps the earlier one.
fn open(earlier: Intake, len: u64, image: &[u8], map: &mut [u64]) -> Stepped
    ensures { (list : Places) → stepped_of result image.now map.new list
        ≡ step (state earlier.len image.now map.old list) (open_file len) }
{
    match intake::open(len, image, map) {
        Ok(opened) => Stepped {
            reply: Ok(Reply::Opened(opened.blocks)),
            intake: opened.intake,
        },
        Err(refusal) => Stepped {
            reply: Err(refusal),
            intake: earlier,
        },
    }
}

// Delivers the piece in a body.
fn deliver(
    intake: Intake,
    block: u64,
    body: &[u8],
    image: &mut [u8],
    map: &mut [u64],
) -> Result<Reply, Refusal>
    ensures { (list : Places) → step_outcome (reply_of result) (state intake.len image.new map.new list)
        ≡ step (state intake.len image.old map.old list) (deliver_block block (drop number_size body.now)) }
{
    Ok(Reply::from(intake::deliver(intake, image, map, block, piece(body))?))
}

// Asks for all rows of a table.
fn ask(intake: Intake, number: u32, memory: Memory, list: &mut [u32]) -> Result<Reply, Refusal>
    ensures { step_outcome (reply_of result) (state intake.len memory.entry.image.now memory.entry.map.now list.new)
        ≡ step (state intake.len memory.entry.image.now memory.entry.map.now list.old) (ask_table number) }
{
    Ok(Reply::from(export::rows(intake, memory, number, list)?))
}

// Runs a command whose body is given.
pub fn step(
    intake: Intake,
    command: Command,
    body: &[u8],
    image: &mut [u8],
    map: &mut [u64],
    list: &mut [u32],
) -> Stepped
    ensures { stepped_of result image.new map.new list.new
        ≡ step (state intake.len image.old map.old list.old) (command_of command body.now) }
{
    match command {
        Command::Open(len) => open(intake, len, image, map),
        Command::Deliver(block) => Stepped {
            reply: deliver(intake, block, body, image, map),
            intake,
        },
        Command::Ask(number) => Stepped {
            reply: ask(intake, number, Memory { image, map }, list),
            intake,
        },
    }
}
