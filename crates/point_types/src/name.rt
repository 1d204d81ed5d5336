//! Names of variables, tags and devices.
ghost use Rattle.std.specs.Prelude.{◌≡◌, ◌≤◌, length, map};
ghost use Rattle.std.specs.List.{list_all};
ghost use Rattle.point_types.specs.Name.{begins_with_letter, folded, is_cut_off, is_letter, is_name_byte, is_name_word, is_parted, name_of, padded};

use crate::keyword::is_reserved_word;
use std::fmt;
use std::marker::Model;

/// The most characters of a name.
const NAME_CAPACITY: usize = 32;

/// A name of a program, a variable, an external or a tag (IEC 61131-3 edition 2, 2.1.2): 1 to 32
/// letters, digits and underscores, kept in lower case. Contracts see its bytes.
#[derive(Clone, Copy, PartialEq, Eq, Debug)]
pub struct Name {
    bytes: [u8; 32],
    length: usize,
}

impl Model for Name {
    ghost use Rattle.std.specs.Prelude.{◌≡◌, ℕ, List, IsTrue, take, length as list_length};
    ghost use Rattle.std.proofs.Common.{arith, length-take-le, sym};
    ghost use Rattle.point_types.specs.Name.{IsPadded, padded};

    ghost Value = { List ℕ };

    ghost view = { λ n. take n.length n.bytes };

    ghost invariant = { λ n. IsPadded n.length n.bytes };

    ghost inverse = { λ bytes. record { bytes = padded bytes; length = list_length bytes } };

    ghost inverse_ok = { λ n h i. record {
      bytes = sym h.zeros i;
      length = length-take-le n.length n.bytes (omega (arith, h.short, h.places)) i;
    } };
}

impl Name {
    ghost use Rattle.std.specs.Prelude.{◌≡◌, IsTrue};
    ghost use Rattle.point_types.specs.Name.{is_name, name_of};

    /// The name that these bytes spell, letters in any case; none where they spell no name or a
    /// reserved word (IEC 61131-3 edition 2, 2.1.2 and 2.1.3).
    pub fn from_bytes(text: &[u8]) -> Option<Name>
        ensures { result ≡ name_of text.now }
    {
        if text.len() > NAME_CAPACITY {
            return None;
        }
        let bytes = in_lower_case(text);
        if is_word_of_name(&bytes[..text.len()]) {
            Some(Name {
                bytes,
                length: text.len(),
            })
        } else {
            None
        }
    }

    /// The bytes of the name, in lower case: 1 to 32, which keep the rule of names.
    pub fn as_bytes(&self) -> &[u8]
        ensures bytes { result.now ≡ self.now }
        ensures named { IsTrue (is_name self.now) }
    {
        &self.bytes[..self.length]
    }

    /// The name as a text, in lower case.
    pub fn as_str(&self) -> &str
        ensures { result.now ≡ self.now }
    {
        let _ = &self.length;
        match str::from_utf8(self.as_bytes()) {
            Ok(text) => text,
            Err(_) => unreachable!(),
        }
    }
}

impl fmt::Display for Name {
    ghost use Rattle.std.specs.Prelude.{Some};

    ghost output = { λ name. Some name };

    fn fmt<W: fmt::Write>(&self, f: &mut fmt::Formatter<W>) -> fmt::Result {
        f.write_str(self.as_str())
    }
}

/// A letter in lower case; any other byte as it is.
pub fn lower_case(byte: u8) -> u8
    ensures { result ≡ folded byte }
{
    if byte >= b'A' && byte <= b'Z' {
        byte + 32
    } else {
        byte
    }
}

// The text in lower case, and zeros after it.
fn in_lower_case(text: &[u8]) -> [u8; 32]
    requires { length text.now ≤ 32 }
    ensures { result ≡ padded (map folded text.now) }
{
    let mut bytes = [0; NAME_CAPACITY];
    for (i, byte) in text.iter().enumerate() {
        bytes[i] = lower_case(*byte);
    }
    bytes
}

// Whether a word in lower case is a name but for its length.
fn is_word_of_name(word: &[u8]) -> bool
    ensures { result ≡ is_name_word word.now }
{
    begins_as_name(word)
        && has_name_bytes(word)
        && has_single_underscores(word)
        && !is_reserved_word(word)
}

fn begins_as_name(word: &[u8]) -> bool
    ensures { result ≡ begins_with_letter word.now }
{
    match word {
        [first, ..] => is_name_letter(*first),
        [] => false,
    }
}

fn is_name_letter(byte: u8) -> bool
    ensures { result ≡ is_letter byte }
{
    (byte >= b'a' && byte <= b'z') || byte == b'_'
}

fn has_name_bytes(word: &[u8]) -> bool
    ensures { result ≡ list_all is_name_byte word.now }
{
    word.iter().all(|byte| is_name_letter(*byte) || (*byte >= b'0' && *byte <= b'9'))
}

fn has_single_underscores(word: &[u8]) -> bool
    ensures { result ≡ is_parted word.now }
{
    let mut rest = word;
    while let [first, after @ ..] = rest {
        if *first == b'_' && ends_underscore(after) {
            return false;
        }
        rest = after;
    }
    true
}

// Whether an underscore before these bytes parts nothing.
fn ends_underscore(after: &[u8]) -> bool
    ensures { result ≡ is_cut_off after.now }
{
    match after {
        [next, ..] => *next == b'_',
        [] => true,
    }
}
