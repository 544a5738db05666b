//! Scripts as tables: behind a first line, each line beside its answer.

use dq_replay::{ReplayFault, run};
use std::alloc::{AllocError, Global};
use std::process::Abort;
use std::str;

/// A line and its answer, which has several lines where names expire.
pub type Row<'t> = (&'t str, &'t str);

fn push_line(text: &mut String, line: &str) -> Result<(), AllocError> {
    text.push_str(line)?;
    text.push('\n')
}

/// The script that a first line and a table's lines make, and its answers.
pub fn joined(alloc: Global, first: &str, rows: &[Row]) -> Result<(String, String), AllocError> {
    let mut script = String::new(alloc);
    let mut answers = String::new(alloc);
    push_line(&mut script, first)?;
    for (line, answer) in rows {
        push_line(&mut script, line)?;
        push_line(&mut answers, answer)?;
    }
    Ok((script, answers))
}

/// A script gets those answers, and ends so.
pub fn runs<R: Abort + AllocGlobal>(
    rt: &R,
    capacity: usize,
    script: &[u8],
    answers: &str,
    end: Result<(), ReplayFault>,
) {
    let mut reader = script;
    let mut written = Vec::new(rt.alloc());
    assert_eq!(rt; run(rt.alloc(), &mut reader, &mut written, capacity), end);
    is_text(rt, &written, answers);
}

/// What was written is that text.
pub fn is_text(rt: &impl Abort, written: &[u8], text: &str) {
    match str::from_utf8(written) {
        Ok(written) => assert_eq!(rt; written, text),
        Err(_) => assert!(rt; false, "what was written isn't text"),
    }
}

/// Each line of a table gets its answer, and none has a fault.
pub fn answers<R: Abort + AllocGlobal>(rt: &R, capacity: usize, first: &str, rows: &[Row]) {
    let Ok((script, answers)) = joined(rt.alloc(), first, rows) else {
        panic!(rt; "no memory is left")
    };
    runs(rt, capacity, script.as_bytes(), &answers, Ok(()));
}
