//! What the program tells where it replays no script, and the status that it then ends with.

use super::*;
use command_line::capacity_of;
use std::cell::RefCell;
use std::fmt::Display;
use std::process::Abort;

// A terminal that keeps what is printed on it, or one whose standard output is closed.
#[derive(Drop)]
struct Terminal {
    output: RefCell<String>,
    errors: RefCell<String>,
    is_closed: bool,
}

fn keep<D: Display + Drop>(kept: &RefCell<String>, value: D, end: &str) -> io::Result<()> {
    match kept.try_borrow_mut() {
        Ok(mut text) => {
            write!(text, "{value}{end}")?;
            Ok(())
        }
        Err(_) => Err(io::Error::from(io::ErrorKind::Other)),
    }
}

impl Terminal {
    fn open_output(&self) -> io::Result<&RefCell<String>> {
        if self.is_closed {
            return Err(io::Error::from(io::ErrorKind::BrokenPipe));
        }
        Ok(&self.output)
    }
}

impl Print for Terminal {
    fn print<D: Display + Drop>(&self, value: D) -> io::Result<()> {
        keep(self.open_output()?, value, "")
    }

    fn println<D: Display + Drop>(&self, value: D) -> io::Result<()> {
        keep(self.open_output()?, value, "\n")
    }

    fn write_all(&self, _bytes: &[u8]) -> io::Result<()> {
        Err(io::Error::from(io::ErrorKind::Unsupported))
    }
}

impl Eprint for Terminal {
    fn eprint<D: Display + Drop>(&self, value: D) -> io::Result<()> {
        keep(&self.errors, value, "")
    }

    fn eprintln<D: Display + Drop>(&self, value: D) -> io::Result<()> {
        keep(&self.errors, value, "\n")
    }
}

const HELP: &str = "\
Replays a script of delays from standard input and writes its answers to standard output

Usage: delay-replay [OPTIONS]

Options:
      --capacity <N>  The most names that may be live, 1 to 65536 [default: 1024]
  -h, --help          Print help

A script begins with the line `delay 1`. Each later line is a command. Here each has its answers beside it:

  delay 1
  insert a 5          a at 5
  insert b 3          b at 3
  extend a 7          a at 7
  tick 4              b expired 3
                      tick 4

Without that first line the script ends with `line 1: bad header`. A line ends with a line feed alone:
a carriage return before it counts as part of the last word, so `delay 1` is then a bad header too.
docs/SCRIPT.md has every command. Ctrl-D ends a script that is typed in a terminal.
";

const CAPACITY_OF_0: &str = "\
error: invalid value '0' for '--capacity <N>': 0 is not in 1..=65536

For more information, try '--help'.
";

const A_FILE: &str = "\
error: unexpected argument 'script' found

Usage: delay-replay [OPTIONS]

For more information, try '--help'.
";

// What is told of a command line of one word, on standard output and on standard error, and the status.
fn refuses<R: Abort + AllocGlobal>(rt: &R, word: &str, is_closed: bool, wanted: (&str, &str, u8)) {
    let terminal = Terminal {
        output: RefCell::new(String::new(rt.alloc())),
        errors: RefCell::new(String::new(rt.alloc())),
        is_closed,
    };
    let Err(refusal) = capacity_of(rt.alloc(), ["delay-replay", word].as_slice()) else {
        panic!(rt; "{word} is accepted")
    };
    let mut told = Vec::new(rt.alloc());
    assert_eq!(rt; refuse(&terminal, &refusal, &mut told), wanted.2);
    assert_eq!(rt; terminal.output.into_inner().as_str(), wanted.0);
    assert_eq!(rt; terminal.errors.into_inner().as_str(), wanted.1);
}

// promise: replay.program-main
#[test]
fn help_goes_to_standard_output(rt: HostRuntime) {
    refuses(&rt, "--help", false, (HELP, "", 0));
}

// promise: replay.program-main
#[test]
fn help_that_nobody_can_read_is_a_write_fault(rt: HostRuntime) {
    refuses(&rt, "--help", true, ("", "", 3));
}

// promise: replay.program-main
#[test]
fn refused_words_are_told_on_standard_error(rt: HostRuntime) {
    for (word, text) in [("--capacity=0", CAPACITY_OF_0), ("script", A_FILE)] {
        refuses(&rt, word, false, ("", text, 2));
    }
}

// promise: replay.program-main
#[test]
fn refusals_have_their_status(rt: HostRuntime) {
    for (refusal, text, status) in [
        (
            Refusal::NoMemory,
            b"delay-replay: out of memory\n".as_slice(),
            4,
        ),
        (
            Refusal::NotText,
            b"delay-replay: an argument isn't text\n".as_slice(),
            2,
        ),
    ] {
        let mut told = Vec::new(rt.alloc());
        assert_eq!(rt; refuse(&rt, &refusal, &mut told), status);
        assert!(rt; told.as_slice() == text);
    }
}
