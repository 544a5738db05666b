//! The names of sessions.
ghost use Rattle.std.specs.Prelude.{◌≡◌, Some, IfOk};

use std::alloc::{AllocError, Allocator, Global};
use std::fmt;
use std::marker::Model;

/// The name of a session: the text by which it was logged in.
#[derive(Drop)]
pub struct Name<A: Allocator = Global> {
    text: String<A>,
}

impl<A: Allocator> Model for Name<A> {
    ghost use Rattle.std.specs.Prelude.{ℕ, List, string_bytes};

    ghost Value = { List ℕ };

    ghost view = { λ n. string_bytes n.text };
}

impl<A: Allocator> Name<A> {
    // A name of this text, of which it takes a copy.
    pub(crate) fn of(alloc: A, text: &str) -> Result<Name<A>, AllocError>
        ensures { IfOk result (λ name. name ≡ text.now) }
    {
        Ok(Name {
            text: String::from_str(alloc, text)?,
        })
    }

    /// Its text.
    pub fn text(&self) -> &str
        ensures { result.now ≡ self.now }
    {
        self.text.as_str()
    }
}

impl<A: Allocator> fmt::Display for Name<A> {
    ghost output = { λ n. Some n };

    fn fmt<W: fmt::Write>(&self, f: &mut fmt::Formatter<W>) -> fmt::Result {
        let text = self.text();
        write!(f, "{text}")
    }
}
