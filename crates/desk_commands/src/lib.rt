// The desk program: reads commands from a reader, runs each, and answers to a writer.
#![tactic(auto)]

ghost use Rattle.std.specs.Prelude.{◌≡◌, ◌≤◌, ◌<◌, ◌^◌, length, take, IfOk, IfSome, OnOk, OnErr};
ghost use Rattle.std.specs.Io.{ReadsAtMost};
ghost use Rattle.std.specs.Io.KnownBytes.{Consumes, IsAtEnd};
ghost use Rattle.desk_steps.specs.Command.{body_size, decoded};
ghost use Rattle.desk_steps.specs.State.{state};
ghost use Rattle.desk_commands.specs.Run.{Reached, Ran, command_bytes, after_bytes};
ghost use Rattle.desk_commands.specs.Reading.{RanAll};
ghost use Rattle.desk_commands.specs.Private.{len_next, Left, LeftAfter, Follows, Turned, Fills};

use desk_steps::{Command, ErrorLine, Reply};
use intake::Intake;
use refusal::Refusal;
use std::io;
use std::io::{ErrorKind, Read, Write};

fn say_rows<W: Write>(out: &mut W, list: &[u32], rows: usize) -> io::Result<()> {
    for row in list.iter().take(rows) {
        writeln!(out, "row {row}")?;
    }
    Ok(())
}

// Writes an answer's line, and the rows behind it.
fn say_reply<W: Write>(out: &mut W, reply: Result<Reply, Refusal>, list: &[u32]) -> io::Result<()> {
    match reply {
        Ok(found) => {
            writeln!(out, "{found}")?;
            say_rows(out, list, found.rows())
        }
        Err(refusal) => writeln!(out, "{refusal}"),
    }
}

// Runs the command that a kind and the bytes of its body say, and answers it. What is no command ends the run. An error in
// answering comes after the command.
fn answer<W: Write>(
    intake: Intake,
    out: &mut W,
    kind: u8,
    body: &[u8],
    image: &mut [u8],
    map: &mut [u64],
    list: &mut [u32],
) -> io::Result<Option<Intake>>
    ensures ok { IfOk result (λ next. state (len_next intake.len next) image.new map.new list.new
        ≡ after_bytes (state intake.len image.old map.old list.old) (command_bytes kind body.now)) }
    ensures err { OnErr result (LeftAfter (state intake.len image.old map.old list.old) (command_bytes kind body.now)
        image.new map.new list.new) }
    ensures next { IfOk result (λ next. Follows next (decoded kind body.now)) }
{
    match desk_steps::decode(kind, body) {
        Ok(command) => {
            let stepped = desk_steps::step(intake, command, body, image, map, list);
            say_reply(out, stepped.reply, list)?;
            Ok(Some(stepped.intake))
        }
        Err(error) => {
            let line = ErrorLine { error };
            write!(out, "{line}")?;
            Ok(None)
        }
    }
}

// Reads until the buffer is full or the input ends, and says how many bytes it read.
fn read_full<R: Read>(input: &mut R, buf: &mut [u8]) -> io::Result<usize>
    ensures bound { ReadsAtMost result buf.new }
    ensures bytes { Fills (R.remaining input.old) (R.remaining input.new) result buf.new }
{
    let mut done = 0;
    for _ in 0..u64::MAX {
        if done == buf.len() {
            return Ok(done);
        }
        match input.read(&mut buf[done..]) {
            Ok(0) => return Ok(done),
            Ok(n) => done += n,
            Err(e) => {
                if e.kind() != ErrorKind::Interrupted {
                    return Err(e);
                }
            }
        }
    }
    Err(io::Error::from(ErrorKind::Interrupted))
}

// Reads the body of a command of a kind, and says how much of it there is.
fn read_body<R: Read>(input: &mut R, kind: u8, body: &mut [u8]) -> io::Result<usize>
    requires { body_size kind ≤ length body.old }
    ensures bound { ReadsAtMost result body.new }
    ensures few { IfOk result (λ n. n ≤ body_size kind) }
    ensures bytes { IfOk result (λ n. Consumes (R.remaining input.old) (R.remaining input.new) (take n body.new)
        × (n < body_size kind → IsAtEnd (R.remaining input.new))) }
{
    let size = desk_steps::body_size(kind);
    read_full(input, &mut body[..size])
}

// Reads a command and runs it.
fn turn<R: Read, W: Write>(
    intake: Intake,
    input: &mut R,
    out: &mut W,
    image: &mut [u8],
    map: &mut [u64],
    list: &mut [u32],
) -> io::Result<Option<Intake>>
    ensures ok { IfOk result (λ next. Reached
        (state intake.len image.old map.old list.old)
        (state (len_next intake.len next) image.new map.new list.new)) }
    ensures err { OnErr result (Left (state intake.len image.old map.old list.old) image.new map.new list.new) }
    ensures read { IfOk result (λ next. Turned next
        (state intake.len image.old map.old list.old)
        (state (len_next intake.len next) image.new map.new list.new)
        (R.remaining input.old) (R.remaining input.new)) }
{
    let mut kind = [0u8; 1];
    if read_full(input, &mut kind)? < 1 {
        return Ok(None);
    }
    let mut body = [0u8; Command::LONGEST];
    let count = read_body(input, kind[0], &mut body)?;
    answer(intake, out, kind[0], &body[..count], image, map, list)
}

// Runs the commands of a reader until they end. A proved loop has to end, and nothing says that the input does: it takes a
// number of turns that no run uses up. Where a read or a write fails, the memory is as some of the commands left it too.
pub fn run<R: Read, W: Write>(
    input: &mut R,
    out: &mut W,
    image: &mut [u8],
    map: &mut [u64],
    list: &mut [u32],
) -> io::Result<()>
    ensures some { Ran image.old image.new map.old map.new list.old list.new }
    ensures all { OnOk result (IfSome (R.remaining input.old) (λ bytes. length bytes < 2 ^ 64
        → RanAll bytes image.old image.new map.old map.new list.old list.new)) }
{
    let mut intake = Intake::new(0);
    for _ in 0..u64::MAX {
        match turn(intake, input, out, image, map, list)? {
            Some(next) => intake = next,
            None => return Ok(()),
        }
    }
    Ok(())
}
