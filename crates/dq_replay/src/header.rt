//! The first line of a script, which names its edition.
ghost use Rattle.std.specs.Prelude.{◌≡◌, ◌≤◌, IfSome};
ghost use Rattle.dq_replay.specs.Script.{limit_of};

use dq_ticks::LAST_TICK;

/// The last tick of a script of the first edition.
pub const FIRST_EDITION_LIMIT: u64 = 68719476735;

/// The last tick of the edition that a first line names.
pub fn limit_of(line: &[u8]) -> Option<u64>
    ensures names { result ≡ limit_of line.now }
    ensures small { IfSome result (λ limit. limit ≤ LAST_TICK) }
{
    if line == b"delay 1".as_slice() {
        Some(FIRST_EDITION_LIMIT)
    } else if line == b"delay 2".as_slice() {
        Some(LAST_TICK)
    } else {
        None
    }
}
