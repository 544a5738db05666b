//! Writing whole texts, with one try for each write.
ghost use Rattle.std.specs.Prelude.{◌≡◌, ℕ, ◌≤◌, length, take, OnOk, IfErr};
ghost use Rattle.std.specs.Io.KnownBytes.{Appends};
ghost use Rattle.dq_replay.specs.declared.fault.ReplayFault.TheVariants.{Write};

use crate::fault::ReplayFault;
use std::io;

/// Writes all of a text, or the front of it.
pub fn write_whole<W: io::Write>(writer: &mut W, text: &[u8]) -> Result<(), ReplayFault>
    ensures ok { OnOk result (Appends (W.contents writer.old) (W.contents writer.new) text.now) }
    ensures err { IfErr result (λ fault. (fault ≡ Write) × (k : ℕ) × (k ≤ length text.now)
        × Appends (W.contents writer.old) (W.contents writer.new) (take k text.now)) }
{
    let mut written = 0;
    while written < text.len() {
        match writer.write(&text[written..]) {
            Ok(0) | Err(_) => return Err(ReplayFault::Write),
            Ok(n) => written += n,
        }
    }
    Ok(())
}
