//! What a site is called.
ghost use Rattle.std.specs.Prelude.{◌≡◌, Ok, Err, IfOk, IfErr, option_map};
ghost use Rattle.toml.specs.View.{view};
ghost use Rattle.service_texts.specs.SiteName.{is_name, name_at, name_in, name_listed, name_said};

use crate::identities::is_plain_text;
use file_keys::TomlFile;
use toml::Value;

/// Why it isn't known what a site is called.
#[derive(Clone, Copy, PartialEq, Eq, Debug)]
pub enum SiteNameFault {
    /// The text is no site file.
    NotToml,
    /// Something else than a text stands there.
    NoText,
    /// The text isn't 1 to 64 bytes, without control characters or a blank at either end.
    BadText,
}

/// What a site is called by its site file: the key `name` of its section `gateway`; None without it.
pub fn site_name<'a>(site: &'a TomlFile<'_>) -> Result<Option<&'a str>, SiteNameFault>
    ensures told { IfOk result (λ name. name_in site.now ≡ Ok (option_map (λ text. text.now) name)) }
    ensures refused { IfErr result (λ e. name_in site.now ≡ Err e) }
{
    match site.tree() {
        Ok(tree) => name_listed(tree),
        Err(_) => Err(SiteNameFault::NotToml),
    }
}

fn name_listed(file: &Value) -> Result<Option<&str>, SiteNameFault>
    ensures told { IfOk result (λ name. name_listed (view file.now) ≡ Ok (option_map (λ text. text.now) name)) }
    ensures refused { IfErr result (λ e. name_listed (view file.now) ≡ Err e) }
{
    match file.get("gateway") {
        Some(gateway) => name_at(gateway),
        None => Err(SiteNameFault::NotToml),
    }
}

/// The name in the section.
fn name_at(gateway: &Value) -> Result<Option<&str>, SiteNameFault>
    ensures told { IfOk result (λ name. name_at (view gateway.now) ≡ Ok (option_map (λ text. text.now) name)) }
    ensures refused { IfErr result (λ e. name_at (view gateway.now) ≡ Err e) }
{
    match gateway.get("name") {
        Some(said) => name_said(said),
        None => Ok(None),
    }
}

fn name_said(said: &Value) -> Result<Option<&str>, SiteNameFault>
    ensures told { IfOk result (λ name. name_said (view said.now) ≡ Ok (option_map (λ text. text.now) name)) }
    ensures refused { IfErr result (λ e. name_said (view said.now) ≡ Err e) }
{
    let Some(text) = said.as_str() else {
        return Err(SiteNameFault::NoText);
    };
    if is_name(text.as_bytes()) {
        Ok(Some(text))
    } else {
        Err(SiteNameFault::BadText)
    }
}

fn is_name(text: &[u8]) -> bool
    ensures { result ≡ is_name text.now }
{
    text.len() >= 1 && text.len() <= 64 && is_plain_text(text)
}
