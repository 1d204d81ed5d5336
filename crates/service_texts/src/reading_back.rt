//! Of which outputs it is compared what their devices show with what they took.
ghost use Rattle.std.specs.Prelude.{◌≡◌, ◌≢◌, [], Ok, Err, IfOk, IfErr};
ghost use Rattle.toml.specs.View.{view, items_view};
ghost use Rattle.service_texts.specs.ReadingBack.{is_out, read_back_after, read_back_at, read_back_from, read_back_in, read_back_listed};
ghost use Rattle.service_texts.specs.declared.reading_back.ReadBackFault.TheVariants as fault;

use file_keys::{TomlFile, section_at, text_at};
use point_types::Items;
use std::alloc::{AllocError, Global};
use toml::Value;

/// Why it isn't known which outputs are compared. Tags are told by their numbers.
#[derive(Clone, Copy, PartialEq, Eq, Debug)]
pub enum ReadBackFault {
    /// The text is no site file.
    NotToml,
    /// `read_back` of a tag is neither true nor false, or the tag is no `out` tag.
    BadReadBack(usize),
    /// Memory was refused.
    OutOfMemory,
}

impl From<AllocError> for ReadBackFault {
    ghost use Rattle.std.specs.Prelude.{◌≡◌};
    ghost use Rattle.service_texts.specs.declared.reading_back.ReadBackFault.TheVariants.{OutOfMemory};

    ghost from_gives = { λ _ e. e ≡ OutOfMemory };

    fn from(_refused: AllocError) -> Self {
        ReadBackFault::OutOfMemory
    }
}

/// Of each tag of a site file, in their order, whether what its device shows is compared with what it took: the key `read_back`, and
/// true without it.
pub fn read_back_tags(alloc: Global, site: &TomlFile<'_>) -> Result<Items<bool>, ReadBackFault>
    ensures told { IfOk result (λ tags. read_back_in site.now ≡ Ok tags) }
    ensures refused { IfErr result (λ e. e ≢ fault.OutOfMemory → read_back_in site.now ≡ Err e) }
{
    match site.tree() {
        Ok(tree) => read_back_listed(alloc, tree),
        Err(_) => Err(ReadBackFault::NotToml),
    }
}

fn read_back_listed(alloc: Global, file: &Value) -> Result<Items<bool>, ReadBackFault>
    ensures told { IfOk result (λ tags. read_back_listed (view file.now) ≡ Ok tags) }
    ensures refused { IfErr result (λ e. e ≢ fault.OutOfMemory → read_back_listed (view file.now) ≡ Err e) }
{
    match section_at(file, "tag") {
        Some(entries) => read_back_after(alloc, entries),
        None => Err(ReadBackFault::NotToml),
    }
}

fn read_back_after(alloc: Global, entries: &[Value]) -> Result<Items<bool>, ReadBackFault>
    ensures told { IfOk result (λ tags. read_back_after [] (items_view entries.now) ≡ Ok tags) }
    ensures refused { IfErr result (λ e. e ≢ fault.OutOfMemory → read_back_after [] (items_view entries.now) ≡ Err e) }
{
    let mut tags = Items::new(alloc);
    for entry in entries {
        let own = read_back_at(tags.len(), entry)?;
        tags.push(own)?;
    }
    Ok(tags)
}

/// That of the tag with this number.
fn read_back_at(tag: usize, entry: &Value) -> Result<bool, ReadBackFault>
    ensures { result ≡ read_back_at tag (view entry.now) }
{
    match read_back_from(entry) {
        Some(is) => Ok(is),
        None => Err(ReadBackFault::BadReadBack(tag)),
    }
}

fn read_back_from(entry: &Value) -> Option<bool>
    ensures { result ≡ read_back_from (view entry.now) }
{
    let Some(value) = entry.get("read_back") else {
        return Some(true);
    };
    if is_out(entry) { value.as_bool() } else { None }
}

fn is_out(entry: &Value) -> bool
    ensures { result ≡ is_out (view entry.now) }
{
    match text_at(entry, "access") {
        Some(access) => access == "out",
        None => false,
    }
}
