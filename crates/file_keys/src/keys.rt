//! The keys of a table of a TOML file.
ghost use Rattle.std.specs.Prelude.{◌≡◌, nat_lt, option_map};
ghost use Rattle.toml.specs.View.{view, items_view};
ghost use Rattle.file_keys.specs.Keys.{text_at, number_at, number_or, flag_or, optional_text_at, optional_number_at, optional_texts_at, all_numbers, all_texts, numbers_in, texts_in, list_at, section_at, count, is_over, has_over, natural_within};

use toml::Value;

/// The text at a key.
pub fn text_at<'a>(entry: &'a Value, key: &str) -> Option<&'a str>
    ensures { option_map (λ s. s.now) result ≡ text_at key.now (view entry.now) }
{
    entry.get(key)?.as_str()
}

/// The whole number at a key.
pub fn number_at(entry: &Value, key: &str) -> Option<i64>
    ensures { result ≡ number_at key.now (view entry.now) }
{
    entry.get(key)?.as_integer()
}

/// The text at a key that may be missing; None where another kind is there.
pub fn optional_text_at<'a>(entry: &'a Value, key: &str) -> Option<Option<&'a str>>
    ensures { option_map (λ o. option_map (λ s. s.now) o) result ≡ optional_text_at key.now (view entry.now) }
{
    let Some(value) = entry.get(key) else {
        return Some(None);
    };
    Some(Some(value.as_str()?))
}

/// The whole number at a key that may be missing, with the number that is usual.
pub fn number_or(entry: &Value, key: &str, usual: i64) -> Option<i64>
    ensures { result ≡ number_or key.now usual (view entry.now) }
{
    match entry.get(key) {
        Some(value) => value.as_integer(),
        None => Some(usual),
    }
}

/// The flag at a key that may be missing, with the one that is usual.
pub fn flag_or(entry: &Value, key: &str, usual: bool) -> Option<bool>
    ensures { result ≡ flag_or key.now usual (view entry.now) }
{
    let Some(value) = entry.get(key) else {
        return Some(usual);
    };
    value.as_bool()
}

/// The whole number at a key that may be missing; None where another kind is there.
pub fn optional_number_at(entry: &Value, key: &str) -> Option<Option<i64>>
    ensures { result ≡ optional_number_at key.now (view entry.now) }
{
    let Some(value) = entry.get(key) else {
        return Some(None);
    };
    Some(Some(value.as_integer()?))
}

/// The list of texts at a key that may be missing; None where another kind is there.
pub fn optional_texts_at<'a>(entry: &'a Value, key: &str) -> Option<Option<&'a [Value]>>
    ensures { option_map (λ o. option_map (λ s. items_view s.now) o) result ≡ optional_texts_at key.now (view entry.now) }
{
    let Some(value) = entry.get(key) else {
        return Some(None);
    };
    Some(Some(texts_in(value)?))
}

/// The elements of a list of whole numbers.
pub fn numbers_in(value: &Value) -> Option<&[Value]>
    ensures { option_map (λ s. items_view s.now) result ≡ numbers_in (view value.now) }
{
    let list = value.as_array()?.as_slice();
    if all_numbers(list) { Some(list) } else { None }
}

/// The elements of a list of texts.
pub fn texts_in(value: &Value) -> Option<&[Value]>
    ensures { option_map (λ s. items_view s.now) result ≡ texts_in (view value.now) }
{
    let list = value.as_array()?.as_slice();
    if all_texts(list) { Some(list) } else { None }
}

fn all_numbers(list: &[Value]) -> bool
    ensures { result ≡ all_numbers (items_view list.now) }
{
    for value in list {
        if !value.is_integer() {
            return false;
        }
    }
    true
}

fn all_texts(list: &[Value]) -> bool
    ensures { result ≡ all_texts (items_view list.now) }
{
    for value in list {
        if !value.is_str() {
            return false;
        }
    }
    true
}

/// The list at a key.
pub fn list_at<'a>(entry: &'a Value, key: &str) -> Option<&'a Vec<Value>>
    ensures { option_map (λ v. items_view v.now.items) result ≡ list_at key.now (view entry.now) }
{
    entry.get(key)?.as_array()
}

/// The entries of a section, none where it is missing; None where another kind is there.
pub fn section_at<'a>(file: &'a Value, key: &str) -> Option<&'a [Value]>
    ensures { option_map (λ v. items_view v.now) result ≡ section_at key.now (view file.now) }
{
    let Some(value) = file.get(key) else {
        return Some(&[]);
    };
    let entries = value.as_array()?;
    Some(entries.as_slice())
}

/// Whether a list of more than so many elements stands at a key.
pub fn has_over(most: usize, key: &str, entry: &Value) -> bool
    ensures { result ≡ has_over most key.now (view entry.now) }
{
    match entry.get(key) {
        Some(value) => is_over(most, value),
        None => false,
    }
}

#[tactic(auto, using(crate::proofs::Lists::count_items))]
fn is_over(most: usize, value: &Value) -> bool
    ensures { result ≡ is_over most (view value.now) }
{
    match value.as_array() {
        Some(list) => list.len() > most,
        None => false,
    }
}

/// Whether there are more than so many entries.
pub fn is_more(entries: &[Value], most: usize) -> bool
    ensures { result ≡ nat_lt most (count (items_view entries.now)) }
{
    entries.len() > most
}

/// A number in 0..255.
pub fn byte_of(number: i64) -> Option<u8>
    ensures { result ≡ natural_within 255 number }
{
    if 0 <= number && number <= 255 {
        Some(number as u8)
    } else {
        None
    }
}

/// The address of a map's mark, in 0..65534.
pub fn base_of(number: i64) -> Option<u16>
    ensures { result ≡ natural_within 65534 number }
{
    if 0 <= number && number <= 65534 {
        Some(number as u16)
    } else {
        None
    }
}
