//! What devices must say of themselves.
ghost use Rattle.std.specs.Prelude.{◌≡◌, ◌≢◌, [], Ok, Err, IfOk, IfErr, length};
ghost use Rattle.std.specs.List.{list_all};
ghost use Rattle.toml.specs.View.{view, items_view};
ghost use Rattle.gateway.specs.served.ServedImage.{behind_word, first_word, text_words};
ghost use Rattle.service_texts.specs.Identities.{has_label_length, has_outer_blank, identities_after, identities_in, identities_listed, identity_at, identity_of, is_blank, is_label, is_plain, is_plain_text, key_word, label_at, label_of, label_said};
ghost use Rattle.service_texts.specs.declared.identities.IdentityFault.TheVariants as fault;

use file_keys::{TomlFile, section_at};
use point_types::Items;
use service_requests::Identity;
use std::alloc::{AllocError, Global};
use toml::Value;

/// What a device may have to say of itself, each by a key of its own.
#[derive(Clone, Copy, PartialEq, Eq, Debug)]
pub enum IdentityKey {
    /// `maker`: the point Mn of its common model.
    Maker,
    /// `type`: the point Md.
    Type,
    /// `serial`: the point SN.
    Serial,
}

impl IdentityKey {
    /// The key as the site file has it.
    pub fn word(self) -> &'static str
        ensures { result.now ≡ key_word self }
    {
        match self {
            IdentityKey::Maker => "maker",
            IdentityKey::Type => "type",
            IdentityKey::Serial => "serial",
        }
    }
}

/// Why it isn't known what devices must say. Devices are told by their numbers.
#[derive(Clone, Copy, PartialEq, Eq, Debug)]
pub enum IdentityFault {
    /// The text is no site file.
    NotToml,
    /// Something else than a text stands at this key of a device.
    NoText(usize, IdentityKey),
    /// No device can say the text at this key of a device, or nobody could see why it doesn't: it isn't 1 to 32 bytes, without
    /// control characters or a blank at either end.
    BadText(usize, IdentityKey),
    /// Memory was refused.
    OutOfMemory,
}

impl From<AllocError> for IdentityFault {
    ghost use Rattle.std.specs.Prelude.{◌≡◌};
    ghost use Rattle.service_texts.specs.declared.identities.IdentityFault.TheVariants.{OutOfMemory};

    ghost from_gives = { λ _ e. e ≡ OutOfMemory };

    fn from(_refused: AllocError) -> Self {
        IdentityFault::OutOfMemory
    }
}

/// What each device of a site file must say of itself, in their order: the keys `maker`, `type` and `serial`; None for one that has
/// none of them.
pub fn identities_of(
    alloc: Global,
    site: &TomlFile<'_>,
) -> Result<Items<Option<Identity>>, IdentityFault>
    ensures told { IfOk result (λ identities. identities_in site.now ≡ Ok identities) }
    ensures refused { IfErr result (λ e. e ≢ fault.OutOfMemory → identities_in site.now ≡ Err e) }
{
    match site.tree() {
        Ok(tree) => identities_listed(alloc, tree),
        Err(_) => Err(IdentityFault::NotToml),
    }
}

fn identities_listed(alloc: Global, file: &Value) -> Result<Items<Option<Identity>>, IdentityFault>
    ensures told { IfOk result (λ identities. identities_listed (view file.now) ≡ Ok identities) }
    ensures refused { IfErr result (λ e. e ≢ fault.OutOfMemory → identities_listed (view file.now) ≡ Err e) }
{
    match section_at(file, "device") {
        Some(entries) => identities_after(alloc, entries),
        None => Err(IdentityFault::NotToml),
    }
}

fn identities_after(
    alloc: Global,
    entries: &[Value],
) -> Result<Items<Option<Identity>>, IdentityFault>
    ensures told { IfOk result (λ identities. identities_after [] (items_view entries.now) ≡ Ok identities) }
    ensures refused { IfErr result (λ e. e ≢ fault.OutOfMemory → identities_after [] (items_view entries.now) ≡ Err e) }
{
    let mut identities = Items::new(alloc);
    for entry in entries {
        let own = identity_at(identities.len(), entry)?;
        identities.push(own)?;
    }
    Ok(identities)
}

/// That of the device with this number.
fn identity_at(device: usize, entry: &Value) -> Result<Option<Identity>, IdentityFault>
    ensures { result ≡ identity_at device (view entry.now) }
{
    let maker = label_at(device, entry, IdentityKey::Maker)?;
    let model = label_at(device, entry, IdentityKey::Type)?;
    let serial = label_at(device, entry, IdentityKey::Serial)?;
    Ok(identity_of(maker, model, serial))
}

fn identity_of(
    maker: Option<[u16; 16]>,
    model: Option<[u16; 16]>,
    serial: Option<[u16; 16]>,
) -> Option<Identity>
    ensures { result ≡ identity_of maker model serial }
{
    match (maker, model, serial) {
        (None, None, None) => None,
        _ => Some(Identity {
            maker,
            model,
            serial,
        }),
    }
}

/// The text at a key of the device with this number, as registers.
fn label_at(
    device: usize,
    entry: &Value,
    key: IdentityKey,
) -> Result<Option<[u16; 16]>, IdentityFault>
    ensures { result ≡ label_at device key (view entry.now) }
{
    match entry.get(key.word()) {
        Some(said) => label_said(device, key, said),
        None => Ok(None),
    }
}

fn label_said(
    device: usize,
    key: IdentityKey,
    said: &Value,
) -> Result<Option<[u16; 16]>, IdentityFault>
    ensures { result ≡ label_said device key (view said.now) }
{
    let Some(text) = said.as_str() else {
        return Err(IdentityFault::NoText(device, key));
    };
    match label_of(text.as_bytes()) {
        Some(label) => Ok(Some(label)),
        None => Err(IdentityFault::BadText(device, key)),
    }
}

/// A text as registers; None where no device can say it, or nobody could see why it doesn't.
fn label_of(text: &[u8]) -> Option<[u16; 16]>
    ensures { result ≡ label_of text.now }
{
    if is_label(text) {
        Some(label_registers(text))
    } else {
        None
    }
}

fn is_label(text: &[u8]) -> bool
    ensures { result ≡ is_label text.now }
{
    has_label_length(text) && is_plain_text(text)
}

/// Whether a text has no control character, and no blank at either end.
pub(crate) fn is_plain_text(text: &[u8]) -> bool
    ensures { result ≡ is_plain_text text.now }
{
    are_plain(text) && !has_outer_blank(text)
}

fn has_label_length(text: &[u8]) -> bool
    ensures { result ≡ has_label_length text.now }
{
    text.len() >= 1 && text.len() <= 32
}

fn are_plain(text: &[u8]) -> bool
    ensures { result ≡ list_all is_plain text.now }
{
    text.iter().all(|byte| is_plain(*byte))
}

/// Whether a text begins or ends with a blank.
fn has_outer_blank(text: &[u8]) -> bool
    ensures { result ≡ has_outer_blank text.now }
{
    is_blank(text.first().copied()) || is_blank(text.last().copied())
}

/// Whether a byte is of no control character of ASCII.
fn is_plain(byte: u8) -> bool
    ensures { result ≡ is_plain byte }
{
    byte >= 32 && byte != 127
}

fn is_blank(byte: Option<u8>) -> bool
    ensures { result ≡ is_blank byte }
{
    match byte {
        Some(byte) => byte == b' ',
        None => false,
    }
}

/// The registers of a text of 32 bytes at most: two bytes each, and zeros after it.
fn label_registers(text: &[u8]) -> [u16; 16]
    ensures { result ≡ text_words 16 text.now }
{
    let mut registers = [0; 16];
    put_text(text, &mut registers);
    registers
}

fn put_text(text: &[u8], into: &mut [u16])
    ensures { into.new ≡ text_words (length into.old) text.now }
{
    let mut rest = text;
    for word in into.iter_mut() {
        *word = first_word(rest);
        rest = behind_word(rest);
    }
}

/// The first two bytes of a text in a register.
fn first_word(text: &[u8]) -> u16
    ensures { result ≡ first_word text.now }
{
    match text {
        [] => 0,
        [a] => u16::from_be_bytes([*a, 0]),
        [a, b, ..] => u16::from_be_bytes([*a, *b]),
    }
}

fn behind_word(text: &[u8]) -> &[u8]
    ensures { result.now ≡ behind_word text.now }
{
    match text {
        [_, _, rest @ ..] => rest,
        _ => &[],
    }
}
