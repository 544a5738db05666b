//! Whole scripts, from bytes to bytes: every command, and refused memory. Those of faults, readers and writers are in
//! plain Rust.

mod memory;
mod table;

use table::{Row, answers};

/// A script of two names.
pub const TWO_NAMES: [Row<'static>; 4] = [
    ("insert a 5", "a at 5"),
    ("insert b 3", "b at 3"),
    ("tick 4", "b expired 3\ntick 4"),
    ("tick 9", "a expired 5\ntick 9"),
];

// promise: replay.written-function
#[test]
fn five_lines(rt: HostRuntime) {
    answers(&rt, 1024, "delay 1", &TWO_NAMES);
}

// promise: replay.written-function
#[test]
fn header_alone(rt: HostRuntime) {
    for first in ["delay 1", "delay 2"] {
        answers(&rt, 4, first, &[]);
    }
}

// promise: replay.written-function replay.nine-commands replay.queue-below
#[test]
fn insert_and_tick(rt: HostRuntime) {
    let table: &[Row] = &[
        ("insert a 10", "a at 10"),
        ("insert a 12", "refused name-taken"),
        ("insert b 12", "refused full"),
        ("insert b 68719476736", "refused too-far"),
        ("tick 68719476736", "refused tick-too-large"),
        ("tick 9", "tick 9"),
        ("tick 12", "a expired 10\ntick 12"),
        ("insert b 3", "b at 12"),
        ("tick 0", "b expired 12\ntick 12"),
    ];
    answers(&rt, 1, "delay 1", table);
}

// promise: replay.written-function replay.nine-commands replay.queue-below
#[test]
fn script_edition_2(rt: HostRuntime) {
    let table: &[Row] = &[
        ("insert a 68719476736", "a at 68719476736"),
        ("tick 68719476735", "tick 68719476735"),
        ("insert b 4398046511104", "refused too-far"),
        ("tick 4398046511104", "refused tick-too-large"),
        (
            "tick 68719476736",
            "a expired 68719476736\ntick 68719476736",
        ),
    ];
    answers(&rt, 4, "delay 2", table);
}

// Names of one deadline expire by their bytes.
// promise: replay.live-names
#[test]
fn names_in_order(rt: HostRuntime) {
    let table: &[Row] = &[
        ("insert b 7", "b at 7"),
        ("insert a 7", "a at 7"),
        ("insert ab 7", "ab at 7"),
        ("insert - 7", "- at 7"),
        ("insert _ 7", "_ at 7"),
        ("insert 0 7", "0 at 7"),
        ("insert z 6", "z at 6"),
        (
            "tick 7",
            "z expired 6\n- expired 7\n0 expired 7\n_ expired 7\na expired 7\nab expired 7\nb expired 7\ntick 7",
        ),
    ];
    answers(&rt, 8, "delay 1", table);
}

// promise: replay.written-function
#[test]
fn greatest_number_and_longest_name(rt: HostRuntime) {
    let table: &[Row] = &[
        ("tick 18446744073709551615", "refused tick-too-large"),
        (
            "insert aaaaaaaaaaaaaaaaaaaaaaaaaaaaaaaa 0",
            "aaaaaaaaaaaaaaaaaaaaaaaaaaaaaaaa at 0",
        ),
    ];
    answers(&rt, 4, "delay 1", table);
}

// promise: replay.nine-commands replay.queue-below replay.insert-full
#[test]
fn script_capacity_one(rt: HostRuntime) {
    let table: &[Row] = &[
        ("insert a 10", "a at 10"),
        ("insert a 12", "refused name-taken"),
        ("insert b 12", "refused full"),
        ("extend a 4", "a at 10"),
        ("extend a 50", "a at 50"),
        ("tick 10", "tick 10"),
        ("cancel a", "a cancelled 50"),
        ("insert a 2", "a at 10"),
        ("live", "live 1"),
        ("tick 3", "a expired 10\ntick 10"),
        ("remove a", "refused missing"),
        ("insert z 68719476736", "refused too-far"),
        ("tick 68719476736", "refused tick-too-large"),
        ("clear", "cleared 0"),
    ];
    answers(&rt, 1, "delay 1", table);
}

// A cancelled name's place is given anew: by a sweep of the full queue, and at once where most places are taken.
// promise: replay.insert-full
#[test]
fn cancelled_places_come_back(rt: HostRuntime) {
    let table: &[Row] = &[
        ("insert a 10", "a at 10"),
        ("insert b 11", "b at 11"),
        ("cancel a", "a cancelled 10"),
        ("insert c 12", "c at 12"),
        ("insert d 13", "d at 13"),
        ("insert e 14", "e at 14"),
        ("insert f 15", "refused full"),
        ("cancel e", "e cancelled 14"),
        ("insert f 15", "f at 15"),
        ("live", "live 4"),
        (
            "tick 20",
            "b expired 11\nc expired 12\nd expired 13\nf expired 15\ntick 20",
        ),
    ];
    answers(&rt, 4, "delay 1", table);
}

/// A script that a queue of three names takes.
pub const THREE_NAMES: [Row<'static>; 10] = [
    ("insert b 7", "b at 7"),
    ("insert a 7", "a at 7"),
    ("insert c 90", "c at 90"),
    ("reset c 6", "c at 6"),
    ("deadline c", "c at 6"),
    ("tick 7", "c expired 6\na expired 7\nb expired 7\ntick 7"),
    ("insert d 20", "d at 20"),
    ("remove d", "d removed 20"),
    ("insert e 30", "e at 30"),
    ("clear", "cleared 1"),
];

// promise: replay.live-names replay.nine-commands replay.queue-below
#[test]
fn script_capacity_three(rt: HostRuntime) {
    answers(&rt, 3, "delay 1", &THREE_NAMES);
}

/// Every command, and every refusal, in a queue of two names.
pub const EVERY_COMMAND: [Row<'static>; 25] = [
    ("insert a 10", "a at 10"),
    ("insert a 5", "refused name-taken"),
    ("insert b 4398046511104", "refused too-far"),
    ("insert b 20", "b at 20"),
    ("insert c 5", "refused full"),
    ("reset c 4398046511104", "refused missing"),
    ("reset a 4398046511104", "refused too-far"),
    ("reset a 30", "a at 30"),
    ("extend c 4398046511104", "refused missing"),
    ("extend b 4398046511104", "refused too-far"),
    ("extend b 25", "b at 25"),
    ("deadline b", "b at 25"),
    ("deadline c", "refused missing"),
    ("cancel c", "refused missing"),
    ("cancel a", "a cancelled 30"),
    ("insert c 21", "c at 21"),
    ("remove d", "refused missing"),
    ("remove b", "b removed 25"),
    ("live", "live 1"),
    ("tick 4398046511104", "refused tick-too-large"),
    ("tick 21", "c expired 21\ntick 21"),
    ("live", "live 0"),
    ("insert e 1", "e at 21"),
    ("clear", "cleared 1"),
    ("clear", "cleared 0"),
];

// promise: replay.nine-commands replay.queue-below replay.session-limit
#[test]
fn every_command_in_both_editions(rt: HostRuntime) {
    for first in ["delay 1", "delay 2"] {
        answers(&rt, 2, first, &EVERY_COMMAND);
    }
}

// Between the editions' limits the first refuses.
// promise: replay.session-limit
#[test]
fn the_first_edition_refuses_beyond_its_limit(rt: HostRuntime) {
    let table: &[Row] = &[
        ("insert a 68719476736", "refused too-far"),
        ("insert b 1", "b at 1"),
        ("reset b 68719476736", "refused too-far"),
        ("extend b 68719476737", "refused too-far"),
        ("tick 68719476736", "refused tick-too-large"),
        ("live", "live 1"),
    ];
    answers(&rt, 2, "delay 1", table);
}

// There the second accepts.
// promise: replay.session-limit
#[test]
fn the_second_edition_goes_on_beyond_the_first(rt: HostRuntime) {
    let table: &[Row] = &[
        ("insert a 68719476736", "a at 68719476736"),
        ("insert b 1", "b at 1"),
        ("reset b 68719476736", "b at 68719476736"),
        ("extend b 68719476737", "b at 68719476737"),
        (
            "tick 68719476736",
            "a expired 68719476736\ntick 68719476736",
        ),
        ("live", "live 1"),
    ];
    answers(&rt, 2, "delay 2", table);
}
