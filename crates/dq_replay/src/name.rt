//! The name of an entry.
ghost use Rattle.std.specs.Prelude.{◌≡◌, ◌≤◌, ℕ, List, length, Some, true};
ghost use Rattle.std.specs.List.{list_all};
ghost use Rattle.std.specs.Prelude.{bytes_eq, refl};
ghost use Rattle.std.specs.Ordering.{nat_cmp};
ghost use Rattle.std.specs.Cmp.{partial_equiv_from_equiv};
ghost use Rattle.std.specs.Cmp.Lexicographic.{slice_cmp, nat_list_eq_equiv, nat_list_cmp_total, texts_po, texts_ties};
ghost use Rattle.std.specs.Cmp.Rules.{hashing};
ghost use Rattle.std.specs.Hash.{str};
ghost use Rattle.std.proofs.Common.{rules};
ghost use Rattle.dq_replay.specs.Text.{is_name, is_name_byte, name_of};

use arrayvec::ArrayString;
use std::cmp::Ordering;
use std::hash::{Hash, Hasher};
use std::marker::Model;
use std::{fmt, str};

/// The longest name, in bytes.
pub const NAME_LIMIT: usize = 32;

/// 1 to 32 bytes of `a` to `z`, `0` to `9`, `_` and `-`, kept in the value itself.
#[derive(Drop)]
pub struct Name {
    text: ArrayString<32>,
}

impl Model for Name {
    ghost Value = { List ℕ };

    ghost view = { λ n. n.text.bytes };
}

impl Name {
    /// The name that a token is.
    pub fn parse(token: &[u8]) -> Option<Name>
        ensures { result ≡ name_of token.now }
    {
        if !is_name(token) {
            return None;
        }
        let text = as_text(token);
        Some(Name {
            text: ArrayString::from(text).unwrap(),
        })
    }

    /// The same name once more.
    pub fn twin(&self) -> Name
        ensures { result ≡ self.now }
    {
        Name { text: self.text }
    }

    pub fn text(&self) -> &str
        ensures { result.now ≡ self.now }
    {
        self.text.as_str()
    }
}

impl PartialEq for Name {
    ghost eq = { λ a b. bytes_eq a b };

    ghost laws = { partial_equiv_from_equiv nat_list_eq_equiv };

    fn eq(&self, other: &Name) -> bool {
        self.text() == other.text()
    }
}

impl Eq for Name {
    ghost laws = { nat_list_eq_equiv };
}

impl PartialOrd for Name {
    ghost partial_cmp = { λ a b. Some (slice_cmp nat_cmp a b) };

    ghost laws = { texts_po };

    fn partial_cmp(&self, other: &Name) -> Option<Ordering> {
        Some(self.cmp(other))
    }
}

/// Names are in the order of their bytes.
impl Ord for Name {
    ghost cmp = { λ a b. slice_cmp nat_cmp a b };

    ghost total = { nat_list_cmp_total };

    ghost matches_partial_cmp = { λ a b. refl };

    ghost matches_eq = { texts_ties };

    fn cmp(&self, other: &Name) -> Ordering {
        self.text().cmp(other.text())
    }
}

impl Hash for Name {
    ghost hash_input = { λ n. str n };

    ghost respects_eq = { Prim.search (hashing, rules) };

    fn hash<H: Hasher>(&self, state: &mut H) {
        self.text().hash(state);
    }
}

impl fmt::Display for Name {
    ghost output = { λ n. Some n };

    fn fmt<W: fmt::Write>(&self, f: &mut fmt::Formatter<W>) -> fmt::Result {
        let text = self.text();
        write!(f, "{text}")
    }
}

fn is_name(token: &[u8]) -> bool
    ensures { result ≡ is_name token.now }
{
    !token.is_empty() && token.len() <= NAME_LIMIT && are_name_bytes(token)
}

fn are_name_bytes(token: &[u8]) -> bool
    ensures { result ≡ list_all is_name_byte token.now }
{
    token.iter().all(|byte| is_name_byte(*byte))
}

fn is_name_byte(byte: u8) -> bool
    ensures { result ≡ is_name_byte byte }
{
    byte.is_ascii_lowercase() || byte.is_ascii_digit() || byte == b'_' || byte == b'-'
}

// A name's bytes as text.
fn as_text(token: &[u8]) -> &str
    requires { list_all is_name_byte token.now ≡ true }
    ensures { result.now ≡ token.now }
{
    str::from_utf8(token).unwrap()
}
