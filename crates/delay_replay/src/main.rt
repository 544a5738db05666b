//! `delay-replay`: reads a script of delays from standard input and writes its answers to standard output.
#![tactic(auto)]

mod command_line;

use command_line::{Refusal, capacity_given};
use dq_replay::{ReplayFault, report, run};
use std::io;
use std::io::{BufReader, BufWriter, Write};
use std::process::ExitCode;

fn main(rt: HostRuntime) -> ExitCode {
    let mut errors = rt.stderr();
    let status = match capacity_given(&rt) {
        Ok(capacity) => match replay(&rt, capacity) {
            Ok(()) => 0,
            Err(fault) => report(&fault, &mut errors),
        },
        Err(refusal) => refuse(&rt, &refusal, &mut errors),
    };
    ExitCode::from(status)
}

// Replays standard input. What was answered is handed on before this returns.
fn replay<R: Input + Print + AllocGlobal>(rt: &R, capacity: usize) -> Result<(), ReplayFault>
where
    R::Reader: Drop,
{
    let alloc = rt.alloc();
    let Ok(mut reader) = BufReader::new(alloc, rt.reader()) else {
        return Err(ReplayFault::NoMemory);
    };
    let Ok(mut writer) = BufWriter::new(alloc, io::writer(rt)) else {
        return Err(ReplayFault::NoMemory);
    };
    run(alloc, &mut reader, &mut writer, capacity)
}

// Tells why there is no replay, and gives the status: 0 for the help that was asked for.
fn refuse<R: Print + Eprint, W: Write>(rt: &R, refusal: &Refusal, errors: &mut W) -> u8 {
    match refusal {
        Refusal::NoMemory => report(&ReplayFault::NoMemory, errors),
        Refusal::NotText => {
            let _ = writeln!(errors, "delay-replay: an argument isn't text");
            2
        }
        Refusal::Told(error) => {
            let told = error.print(rt);
            match (error.use_stderr(), told) {
                (true, _) => 2,
                (false, Ok(())) => 0,
                (false, Err(_)) => report(&ReplayFault::Write, errors),
            }
        }
    }
}

#[cfg(test)]
mod tests;
