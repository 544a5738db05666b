//! What people are told of a fault.
ghost use Rattle.std.specs.Prelude.{◌≡◌, OnOk};
ghost use Rattle.std.specs.Io.KnownBytes.{Appends};
ghost use Rattle.dq_replay.specs.Fault.{report_line, status_of};

use crate::fault::ReplayFault;
use std::io;
use std::io::Write;

/// Tells a fault on the writer, in one line, and gives the status that the program ends with: 1 for a script's fault,
/// 2 for a bad capacity, 3 for a fault of the reader or the writer, 4 for want of memory.
///
/// A fault of this writer is ignored.
pub fn report<W: Write>(fault: &ReplayFault, writer: &mut W) -> u8
    ensures { result ≡ status_of fault.now }
{
    let _ = tell(fault, writer);
    match fault {
        ReplayFault::Script { .. } => 1,
        ReplayFault::BadConfig => 2,
        ReplayFault::Read | ReplayFault::Write => 3,
        ReplayFault::NoMemory => 4,
    }
}

// Writes the line that tells a fault.
fn tell<W: Write>(fault: &ReplayFault, writer: &mut W) -> io::Result<()>
    ensures { OnOk result
        (Appends (W.contents writer.old) (W.contents writer.new) (report_line fault.now)) }
{
    writeln!(writer, "delay-replay: {fault}")
}
