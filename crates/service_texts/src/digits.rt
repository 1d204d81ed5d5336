//! A text, by a few digits.
ghost use Rattle.std.specs.Prelude.{◌≡◌, string_bytes, take, IfOk};
ghost use Rattle.service_texts.specs.Starting.{digits};

use sha2::{Digest, Sha256};
use std::alloc::{AllocError, Global};

/// The first twelve hexadecimal digits of a text's SHA-256: two texts with the same ones are the same text, as far as nobody
/// made them for that.
pub fn digits_of(alloc: Global, text: &str) -> Result<String, AllocError>
    ensures { IfOk result (λ shown. string_bytes shown ≡ digits text.now) }
{
    let digest = Sha256::digest(text.as_bytes());
    hex::encode(alloc, front_of(&digest))
}

/// The bytes that twelve digits spell.
fn front_of(digest: &[u8; 32]) -> &[u8]
    ensures { result.now ≡ take 6 digest.now }
{
    &digest[..6]
}
