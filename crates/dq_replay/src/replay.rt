//! The replay of a script.
ghost use Rattle.std.specs.Prelude.{◌≡◌, ℕ, ◌<◌, ◌≤◌, ◌↔◌, ◌⊎◌, List, length, IfSome, IfOk, IfErr, IsErrOf};
ghost use Rattle.std.specs.Io.KnownBytes.{Appends, Keeps};
ghost use Rattle.dq_replay.specs.declared.fault.ReplayFault.TheVariants.{Script, Write};
ghost use Rattle.dq_replay.specs.Script.{first_state, line_does, outcome_of};
ghost use Rattle.dq_replay.specs.Replay.{DoesLine, LineRan, Ran, IsOutcome};

use crate::command::parse;
use crate::fault::{FaultKind, ReplayFault};
use crate::header::limit_of;
use crate::line::{LAST_LINE, LINE_LIMIT, LineEnd, next_byte, next_line};
use crate::output::write_whole;
use crate::session::Session;
use dq_ticks::CAPACITY_LIMIT;
use std::alloc::Allocator;
use std::io::{Read, Write};

/// Reads a script and writes its answers, with at most `capacity` live names, 1 to [`CAPACITY_LIMIT`].
///
/// The reader is asked for one byte at a time, so that no byte is taken behind the one that decides the answer.
/// Neither a read nor a write is tried again. The writer is flushed once, before the script's end or its fault is
/// answered.
///
/// # Errors
///
/// `BadConfig` where the capacity is out of range: then nothing was read or written. `Script` where a line is wrong,
/// `Read` and `Write` where the reader or the writer answered an error, `NoMemory` where an allocation was refused.
pub fn run<A: Allocator, R: Read, W: Write>(
    alloc: A,
    reader: &mut R,
    writer: &mut W,
    capacity: usize,
) -> Result<(), ReplayFault>
    // At the script's end and at a script's fault: the outcome of all the reader's bytes, and nothing else.
    ensures answered { IfSome (R.remaining reader.old) (λ input. (written : List ℕ)
        × Appends (W.contents writer.old) (W.contents writer.new) written
        × IsOutcome result written (outcome_of capacity input)) }
    // At each end: what was taken of the bytes, and what was written.
    ensures runs { Ran (R.remaining reader.old) (R.remaining reader.new)
        (W.contents writer.old) (W.contents writer.new) 1 (first_state capacity) result }
    ensures config { IsErrOf result ReplayFault.BadConfig
        ↔ ((capacity ≡ 0) ⊎ (CAPACITY_LIMIT < capacity)) }
    ensures untouched { IsErrOf result ReplayFault.BadConfig
        → (reader.new ≡ reader.old) × (writer.new ≡ writer.old) }
{
    if capacity == 0 || capacity > CAPACITY_LIMIT {
        return Err(ReplayFault::BadConfig);
    }
    match replay(&alloc, reader, writer, capacity) {
        Ok(()) => {
            flush(writer)?;
            Ok(())
        }
        Err(ReplayFault::Script { line, kind }) => {
            flush(writer)?;
            Err(ReplayFault::Script { line, kind })
        }
        Err(fault) => Err(fault),
    }
}

fn flush<W: Write>(writer: &mut W) -> Result<(), ReplayFault>
    ensures kept { Keeps (W.contents writer.old) (W.contents writer.new) }
    ensures err { IfErr result (λ fault. fault ≡ Write) }
{
    match writer.flush() {
        Ok(()) => Ok(()),
        Err(_) => Err(ReplayFault::Write),
    }
}

fn replay<A: Allocator + Copy, R: Read, W: Write>(
    alloc: A,
    reader: &mut R,
    writer: &mut W,
    capacity: usize,
) -> Result<(), ReplayFault>
    requires some { 0 < capacity }
    requires few { capacity ≤ CAPACITY_LIMIT }
    ensures runs { Ran (R.remaining reader.old) (R.remaining reader.new)
        (W.contents writer.old) (W.contents writer.new) 1 (first_state capacity) result }
    ensures config { ¬ IsErrOf result ReplayFault.BadConfig }
{
    let mut session = Session::new(alloc, capacity)?;
    let mut line = Vec::new(alloc);
    for number in 1..LAST_LINE + 1 {
        if !replay_line(alloc, reader, writer, &mut session, &mut line, number)? {
            return Ok(());
        }
    }
    match next_byte(reader)? {
        None => Ok(()),
        Some(_) => Err(script_fault(LAST_LINE + 1, FaultKind::TooManyLines)),
    }
}

// Reads and answers one line, and tells whether the script goes on.
fn replay_line<A: Allocator + Copy, R: Read, W: Write>(
    alloc: A,
    reader: &mut R,
    writer: &mut W,
    session: &mut Session<A>,
    line: &mut Vec<u8, A>,
    number: u32,
) -> Result<bool, ReplayFault>
    requires lines { number ≤ LAST_LINE }
    // Each line gives at most one stamp.
    requires given { session.old.given < number }
    ensures ran { LineRan (R.remaining reader.old) (R.remaining reader.new)
        (W.contents writer.old) (W.contents writer.new)
        number session.old.state session.new.state result }
    ensures given { IfOk result (λ _. session.new.given ≤ number) }
{
    match next_line(reader, line)? {
        LineEnd::Whole => {
            let text = answer(alloc, session, number, line)?;
            write_whole(writer, text.as_bytes())?;
            Ok(true)
        }
        LineEnd::Nothing if number == 1 => Err(script_fault(number, FaultKind::BadHeader)),
        LineEnd::Nothing => Ok(false),
        LineEnd::Unfinished => Err(script_fault(number, FaultKind::UnfinishedLine)),
        LineEnd::TooLong => Err(script_fault(number, FaultKind::LineTooLong)),
    }
}

// Does what one whole line says, and gives the text of its answer.
fn answer<A: Allocator + Copy>(
    alloc: A,
    session: &mut Session<A>,
    number: u32,
    line: &[u8],
) -> Result<String<A>, ReplayFault>
    requires lines { number ≤ LAST_LINE }
    requires bytes { length line.now ≤ LINE_LIMIT }
    requires given { session.old.given < number }
    ensures does { DoesLine number session.new.state result
        (line_does number session.old.state line.now) }
    ensures given { IfOk result (λ _. session.new.given ≤ number) }
{
    if number == 1 {
        let Some(limit) = limit_of(line) else {
            return Err(script_fault(number, FaultKind::BadHeader));
        };
        session.set_limit(limit);
        return Ok(String::new(alloc));
    }
    match parse(line) {
        Ok(command) => Ok(session.answer(alloc, command)?),
        Err(kind) => Err(script_fault(number, kind)),
    }
}

fn script_fault(line: u32, kind: FaultKind) -> ReplayFault
    ensures { result ≡ Script line kind }
{
    ReplayFault::Script { line, kind }
}
