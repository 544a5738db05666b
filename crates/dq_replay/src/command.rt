//! The commands of a script, and how a line says them.
ghost use Rattle.std.specs.Prelude.{◌≡◌, ℕ, ◌+◌, ◌<◌, ◌^◌, ◌*◌, ◌-◌, ◌≤◌, ◌⊎◌, ◌==◌, true, false, List, [], ◌∷◌, length, Some, None, MatchOption, position, IfSome, OnSome, IfNone};
ghost use Rattle.std.specs.Char.{is_ascii_digit};
ghost use Rattle.dq_replay.specs.Text.{tokens_of, number_of, digits_behind};
ghost use Rattle.dq_replay.specs.Script.{command_of, verb_of, completed, both_of, one_name, one_number, alone};
ghost use Rattle.dq_replay.specs.Tokens.{tokens_behind};

use crate::fault::FaultKind;
use crate::name::Name;
use std::marker::Model;

/// What a line of a script asks for.
#[derive(Drop)]
pub enum Command {
    /// A new name, to expire at a tick.
    Insert { name: Name, when: u64 },
    /// Another tick for a live name to expire at.
    Reset { name: Name, when: u64 },
    /// A later tick for a live name to expire at.
    Extend { name: Name, when: u64 },
    /// The end of a live name, by whoever holds it.
    Cancel { name: Name },
    /// The end of a live name, by the queue's owner.
    Remove { name: Name },
    /// The deadline of a live name.
    Deadline { name: Name },
    /// The number of live names.
    Live,
    /// The end of all live names.
    Clear,
    /// The tick that was reached.
    Tick { to: u64 },
}

/// What a line's first token asks for.
#[derive(Clone, Copy)]
pub enum Verb {
    ToInsert,
    ToReset,
    ToExtend,
    ToCancel,
    ToRemove,
    ToTell,
    ToCount,
    ToClear,
    ToTick,
}

/// The command that a line says.
pub fn parse(line: &[u8]) -> Result<Command, FaultKind>
    ensures { result ≡ command_of (tokens_of line.now) }
{
    let mut tokens = Tokens::of(line);
    let Some(first) = tokens.next() else {
        return Err(FaultKind::UnknownCommand);
    };
    let Some(verb) = verb_of(first) else {
        return Err(FaultKind::UnknownCommand);
    };
    complete(verb, &mut tokens)
}

fn verb_of(token: &[u8]) -> Option<Verb>
    ensures { result ≡ verb_of token.now }
{
    if token == b"insert".as_slice() {
        Some(Verb::ToInsert)
    } else if token == b"reset".as_slice() {
        Some(Verb::ToReset)
    } else if token == b"extend".as_slice() {
        Some(Verb::ToExtend)
    } else if token == b"cancel".as_slice() {
        Some(Verb::ToCancel)
    } else if token == b"remove".as_slice() {
        Some(Verb::ToRemove)
    } else if token == b"deadline".as_slice() {
        Some(Verb::ToTell)
    } else if token == b"live".as_slice() {
        Some(Verb::ToCount)
    } else if token == b"clear".as_slice() {
        Some(Verb::ToClear)
    } else if token == b"tick".as_slice() {
        Some(Verb::ToTick)
    } else {
        None
    }
}

// The command that the tokens behind the first complete.
fn complete(verb: Verb, tokens: &mut Tokens<'_>) -> Result<Command, FaultKind>
    ensures { result ≡ completed (Some verb) tokens.old }
{
    match verb {
        Verb::ToInsert => {
            let (name, when) = name_and_number(tokens)?;
            Ok(Command::Insert { name, when })
        }
        Verb::ToReset => {
            let (name, when) = name_and_number(tokens)?;
            Ok(Command::Reset { name, when })
        }
        Verb::ToExtend => {
            let (name, when) = name_and_number(tokens)?;
            Ok(Command::Extend { name, when })
        }
        Verb::ToCancel => Ok(Command::Cancel {
            name: one_name(tokens)?,
        }),
        Verb::ToRemove => Ok(Command::Remove {
            name: one_name(tokens)?,
        }),
        Verb::ToTell => Ok(Command::Deadline {
            name: one_name(tokens)?,
        }),
        Verb::ToCount => alone(tokens, Command::Live),
        Verb::ToClear => alone(tokens, Command::Clear),
        Verb::ToTick => Ok(Command::Tick {
            to: one_number(tokens)?,
        }),
    }
}

fn name_and_number(tokens: &mut Tokens<'_>) -> Result<(Name, u64), FaultKind>
    ensures { result ≡ both_of tokens.old }
{
    let (Some(name), Some(number), None) = (tokens.next(), tokens.next(), tokens.next()) else {
        return Err(FaultKind::BadShape);
    };
    let Some(name) = Name::parse(name) else {
        return Err(FaultKind::BadName);
    };
    let Some(number) = number_of(number) else {
        return Err(FaultKind::BadNumber);
    };
    Ok((name, number))
}

fn one_name(tokens: &mut Tokens<'_>) -> Result<Name, FaultKind>
    ensures { result ≡ one_name tokens.old }
{
    let (Some(name), None) = (tokens.next(), tokens.next()) else {
        return Err(FaultKind::BadShape);
    };
    Name::parse(name).ok_or(FaultKind::BadName)
}

fn one_number(tokens: &mut Tokens<'_>) -> Result<u64, FaultKind>
    ensures { result ≡ one_number tokens.old }
{
    let (Some(number), None) = (tokens.next(), tokens.next()) else {
        return Err(FaultKind::BadShape);
    };
    number_of(number).ok_or(FaultKind::BadNumber)
}

fn alone(tokens: &mut Tokens<'_>, command: Command) -> Result<Command, FaultKind>
    ensures { result ≡ alone command tokens.old }
{
    match tokens.next() {
        None => Ok(command),
        Some(_) => Err(FaultKind::BadShape),
    }
}

// The tokens of a line that are left, between single spaces.
#[derive(Drop)]
struct Tokens<'t> {
    rest: Option<&'t [u8]>,
}

impl<'t> Model for Tokens<'t> {
    ghost use Rattle.std.specs.Prelude.{ℕ, List};
    ghost use Rattle.dq_replay.specs.Tokens.{tokens_behind};

    ghost Value = { List (List ℕ) };

    ghost view = { λ w. tokens_behind w.rest };
}

impl<'t> Tokens<'t> {
    fn of(line: &'t [u8]) -> Tokens<'t>
        ensures { result ≡ tokens_of line.now }
    {
        Tokens { rest: Some(line) }
    }

    fn next(&mut self) -> Option<&'t [u8]>
        ensures { MatchOption result ((self.old ≡ []) × (self.new ≡ []))
            (λ token. self.old ≡ token.now ∷ self.new) }
    {
        let (token, rest) = split_token(self.rest?);
        self.rest = rest;
        Some(token)
    }
}

// The first token of a line, and what stands behind the space that ends it.
fn split_token(text: &[u8]) -> (&[u8], Option<&[u8]>)
    ensures { tokens_of text.now ≡ result.0.now ∷ tokens_behind result.1 }
{
    match space_at(text) {
        Some(at) => (&text[..at], Some(&text[at + 1..])),
        None => (text, None),
    }
}

fn space_at(text: &[u8]) -> Option<usize>
    ensures first { result ≡ position (λ b. b == 32) text.now }
    ensures within { IfSome result (λ at. at < length text.now) }
    ensures small { IfSome result (λ at. at + 1 < 2 ^ 64) }
{
    text.iter().position(|b| *b == b' ')
}

// The number that a token is: digits, of which the first of several isn't `0`.
fn number_of(token: &[u8]) -> Option<u64>
    ensures { result ≡ number_of token.now }
{
    match token {
        [] | [b'0', _, ..] => None,
        _ => digits(token),
    }
}

// The number that digits make, where it is below `2^64`.
fn digits(token: &[u8]) -> Option<u64>
    ensures { result ≡ digits_behind 0 token.now }
{
    let mut value = 0;
    for byte in token {
        match push_digit(value, *byte) {
            Some(next) => value = next,
            None => return None,
        }
    }
    Some(value)
}

fn push_digit(value: u64, byte: u8) -> Option<u64>
    ensures none { IfNone result
        ((is_ascii_digit byte ≡ false) ⊎ (2 ^ 64 ≤ 10 * value + (byte - 48))) }
    ensures digit { OnSome result (is_ascii_digit byte ≡ true) }
    ensures value { IfSome result (λ next. next ≡ 10 * value + (byte - 48)) }
{
    if !byte.is_ascii_digit() {
        return None;
    }
    value.checked_mul(10)?.checked_add(u64::from(byte - b'0'))
}
