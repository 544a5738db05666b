//! The command line of `delay-replay`.

use clap::error::ErrorKind;
use clap::{Arg, Command, Error, value_parser};
use dq_ticks::CAPACITY_LIMIT;
use std::alloc::Global;
use std::convert::AsStr;
use std::rt::Env;
use std::{env, io};

// The capacity where none is given.
const DEFAULT_CAPACITY: usize = 1024;

// What the help says of a script, after the options.
const OF_A_SCRIPT: &str = "\
A script begins with the line `delay 1`. Each later line is a command. Here each has its answers beside it:

  delay 1
  insert a 5          a at 5
  insert b 3          b at 3
  extend a 7          a at 7
  tick 4              b expired 3
                      tick 4

Without that first line the script ends with `line 1: bad header`. A line ends with a line feed alone:
a carriage return before it counts as part of the last word, so `delay 1` is then a bad header too.
docs/SCRIPT.md has every command. Ctrl-D ends a script that is typed in a terminal.";

/// Why no script is replayed.
#[derive(Drop)]
pub enum Refusal {
    /// The words ask for help, or they don't fit the command.
    Told(Error),
    /// A word isn't text.
    NotText,
    /// An allocation was refused.
    NoMemory,
}

/// The capacity that the process's command line asks for.
pub fn capacity_given<R: Env + AllocGlobal>(rt: &R) -> Result<usize, Refusal> {
    let words = match env::args(rt) {
        Ok(words) => words,
        Err(error) if error.kind() == io::ErrorKind::OutOfMemory => return Err(Refusal::NoMemory),
        Err(_) => return Err(Refusal::NotText),
    };
    let words: Result<Vec<String>, _> = words.collect(rt.alloc());
    let Ok(words) = words else {
        return Err(Refusal::NoMemory);
    };
    capacity_of(rt.alloc(), words.as_slice())
}

/// The capacity that the words of a command line ask for.
pub fn capacity_of<S: AsStr>(alloc: Global, words: &[S]) -> Result<usize, Refusal> {
    match parse(alloc, words) {
        Ok(capacity) => Ok(capacity),
        Err(error) if error.kind() == ErrorKind::OutOfMemory => Err(Refusal::NoMemory),
        Err(error) => Err(Refusal::Told(error)),
    }
}

fn parse<S: AsStr>(alloc: Global, words: &[S]) -> Result<usize, Error> {
    let capacity = Arg::new(alloc, "capacity")
        .long("capacity")
        .value_name("N")
        .help("The most names that may be live, 1 to 65536")
        .value_parser(value_parser!(usize).range(1..=CAPACITY_LIMIT as i64))
        .default_value("1024");
    let command = Command::new(alloc, "delay-replay")
        .bin_name("delay-replay")?
        .about(
            "Replays a script of delays from standard input and writes its answers to standard output",
        )
        .after_help(OF_A_SCRIPT)
        .arg(capacity)?;
    let matches = command.try_get_matches_from(words)?;
    Ok(
        matches
            .get_one::<usize>("capacity")
            .unwrap_or(DEFAULT_CAPACITY),
    )
}

#[cfg(test)]
mod tests {
    use super::*;
    use std::test::Fail;

    // promise: replay.capacity-refused
    #[test]
    fn capacities(rt: HostRuntime) -> Result<(), Fail> {
        for (words, capacity) in [
            (["delay-replay"].as_slice(), 1024),
            (["delay-replay", "--capacity", "1"].as_slice(), 1),
            (["delay-replay", "--capacity=65536"].as_slice(), 65536),
        ] {
            let given = parse(rt.alloc(), words)?;
            assert_eq!(rt; given, capacity);
        }
        Ok(())
    }

    // promise: replay.program-main
    #[test]
    fn refused_words(rt: HostRuntime) {
        for (word, kind) in [
            ("--capacity=0", ErrorKind::ValueValidation),
            ("--capacity=65537", ErrorKind::ValueValidation),
            ("--capacity=-1", ErrorKind::ValueValidation),
            ("--capacity=ten", ErrorKind::ValueValidation),
            ("--capacity", ErrorKind::InvalidValue),
            ("script", ErrorKind::UnknownArgument),
            ("--help", ErrorKind::DisplayHelp),
        ] {
            match parse(rt.alloc(), ["delay-replay", word].as_slice()) {
                Ok(_) => assert!(rt; false, "{word}"),
                Err(error) => assert!(rt; error.kind() == kind, "{word}"),
            }
        }
    }
}
