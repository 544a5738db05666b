//! The texts of answers, each line with its end.
ghost use Rattle.std.specs.Prelude.{◌≡◌, ◌++◌, IfOk, string_bytes, codes, decimal, flat_map};
ghost use Rattle.dq_replay.specs.Script.{at_line, cancelled_line, removed_line, live_line, cleared_line, expired_line, tick_line, line};

use crate::name::Name;
use crate::session::Lease;
use std::alloc::{AllocError, Allocator};

pub fn at_text<A: Allocator>(alloc: A, name: &Name, deadline: u64) -> Result<String<A>, AllocError>
    ensures { IfOk result (λ text. string_bytes text ≡ at_line name.now deadline) }
{
    format!(in alloc; "{name} at {deadline}\n")
}

pub fn cancelled_text<A: Allocator>(
    alloc: A,
    name: &Name,
    deadline: u64,
) -> Result<String<A>, AllocError>
    ensures { IfOk result (λ text. string_bytes text ≡ cancelled_line name.now deadline) }
{
    format!(in alloc; "{name} cancelled {deadline}\n")
}

pub fn removed_text<A: Allocator>(
    alloc: A,
    name: &Name,
    deadline: u64,
) -> Result<String<A>, AllocError>
    ensures { IfOk result (λ text. string_bytes text ≡ removed_line name.now deadline) }
{
    format!(in alloc; "{name} removed {deadline}\n")
}

pub fn live_text<A: Allocator>(alloc: A, count: usize) -> Result<String<A>, AllocError>
    ensures { IfOk result (λ text. string_bytes text ≡ live_line count) }
{
    format!(in alloc; "live {count}\n")
}

pub fn cleared_text<A: Allocator>(alloc: A, count: usize) -> Result<String<A>, AllocError>
    ensures { IfOk result (λ text. string_bytes text ≡ cleared_line count) }
{
    format!(in alloc; "cleared {count}\n")
}

/// The answer of a refused command.
pub fn refusal_text<A: Allocator>(alloc: A, reason: &str) -> Result<String<A>, AllocError>
    ensures { IfOk result (λ text. string_bytes text ≡ line (codes "refused " ++ reason.now)) }
{
    format!(in alloc; "refused {reason}\n")
}

/// The lines of the names that expire at a tick, and the line of the tick.
pub fn tick_text<A: Allocator + Copy>(
    alloc: A,
    due: &[Lease],
    now: u64,
) -> Result<String<A>, AllocError>
    ensures { IfOk result
        (λ text. string_bytes text ≡ flat_map expired_line due.now ++ tick_line now) }
{
    let mut text = String::new(alloc);
    for lease in due {
        let expired = expired_text(alloc, lease)?;
        text.push_str(&expired)?;
    }
    let last = last_text(alloc, now)?;
    text.push_str(&last)?;
    Ok(text)
}

fn expired_text<A: Allocator>(alloc: A, lease: &Lease) -> Result<String<A>, AllocError>
    ensures { IfOk result (λ text. string_bytes text ≡ expired_line lease.now) }
{
    let name = &lease.name;
    let deadline = lease.deadline;
    format!(in alloc; "{name} expired {deadline}\n")
}

fn last_text<A: Allocator>(alloc: A, now: u64) -> Result<String<A>, AllocError>
    ensures { IfOk result (λ text. string_bytes text ≡ tick_line now) }
{
    format!(in alloc; "tick {now}\n")
}
