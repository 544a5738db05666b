//! Why a replay ends early.
ghost use Rattle.std.specs.Prelude.{◌≡◌, Some};
ghost use Rattle.dq_replay.specs.declared.fault.ReplayFault.TheVariants.{NoMemory};

use std::alloc::{AllocError, AllocFailed};
use std::error::Error;
use std::fmt;

/// What is wrong with a line of a script. Of several faults of one line the first is told.
#[derive(Clone, Copy, Debug, PartialEq, Eq)]
pub enum FaultKind {
    /// The script has more than 1,000,000 lines.
    TooManyLines,
    /// More than 128 bytes stand before the line's end.
    LineTooLong,
    /// The input ends inside the line, behind at least one byte of it.
    UnfinishedLine,
    /// The first line names no edition, or the input is empty.
    BadHeader,
    /// The line's first token is no command.
    UnknownCommand,
    /// The command has another number of tokens.
    BadShape,
    /// A name isn't 1 to 32 bytes of `a` to `z`, `0` to `9`, `_` and `-`.
    BadName,
    /// A number isn't `0`, or digits that don't begin with `0`, of a value below `2^64`.
    BadNumber,
}

/// Why `run` gave up. Lines count from 1.
#[derive(Clone, Copy, Debug, PartialEq, Eq)]
pub enum ReplayFault {
    /// The capacity isn't from 1 to 65536.
    BadConfig,
    /// An allocation was refused.
    NoMemory,
    /// A line of the script is wrong.
    Script {
        /// The line's number.
        line: u32,
        /// What is wrong with it.
        kind: FaultKind,
    },
    /// The reader answered an error.
    Read,
    /// The writer answered an error, or took nothing.
    Write,
}

impl fmt::Display for FaultKind {
    ghost use Rattle.std.specs.Prelude.{Some};
    ghost use Rattle.dq_replay.specs.Fault.{kind_text};

    ghost output = { λ kind. Some (kind_text kind) };

    fn fmt<W: fmt::Write>(&self, f: &mut fmt::Formatter<W>) -> fmt::Result {
        match self {
            FaultKind::TooManyLines => write!(f, "too many lines"),
            FaultKind::LineTooLong => write!(f, "line too long"),
            FaultKind::UnfinishedLine => write!(f, "unfinished line"),
            FaultKind::BadHeader => write!(f, "bad header"),
            FaultKind::UnknownCommand => write!(f, "unknown command"),
            FaultKind::BadShape => write!(f, "wrong number of words"),
            FaultKind::BadName => write!(f, "bad name"),
            FaultKind::BadNumber => write!(f, "bad number"),
        }
    }
}

impl fmt::Display for ReplayFault {
    ghost use Rattle.std.specs.Prelude.{Some};
    ghost use Rattle.dq_replay.specs.Fault.{fault_text};

    ghost output = { λ fault. Some (fault_text fault) };

    fn fmt<W: fmt::Write>(&self, f: &mut fmt::Formatter<W>) -> fmt::Result {
        match self {
            ReplayFault::BadConfig => write!(f, "bad capacity"),
            ReplayFault::NoMemory => write!(f, "out of memory"),
            ReplayFault::Script { line, kind } => write!(f, "line {line}: {kind}"),
            ReplayFault::Read => write!(f, "read fault"),
            ReplayFault::Write => write!(f, "write fault"),
        }
    }
}

impl Error for FaultKind {}

impl Error for ReplayFault {}

impl From<AllocError> for ReplayFault {
    ghost from_gives = { λ _ fault. fault ≡ NoMemory };

    fn from(_: AllocError) -> ReplayFault {
        ReplayFault::NoMemory
    }
}

impl<T: Drop> From<AllocFailed<T>> for ReplayFault {
    ghost from_gives = { λ _ fault. fault ≡ NoMemory };

    fn from(_: AllocFailed<T>) -> ReplayFault {
        ReplayFault::NoMemory
    }
}
