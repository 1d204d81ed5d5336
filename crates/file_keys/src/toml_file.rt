//! The text of a TOML file with its tree.
ghost use Rattle.std.specs.Prelude.{◌≡◌, IfOk, MatchResult};
ghost use Rattle.file_keys.specs.Trees.{IsNoToml, IsTree};

use std::alloc::{AllocError, Global};
use std::marker::Model;
use toml::Value;
use toml::de::Error;

/// The text of a file, and its tree, or why the text is no TOML. A text is parsed once: whoever wants more of it takes the
/// tree. Contracts see the text.
#[derive(Drop)]
pub struct TomlFile<'t> {
    text: &'t str,
    parsed: Result<Value, Error>,
}

impl<'t> Model for TomlFile<'t> {
    ghost use Rattle.std.specs.Prelude.{ℕ, List};
    ghost use Rattle.file_keys.specs.Trees.{IsKept};

    ghost Value = { List ℕ };

    ghost view = { λ f. f.text.now };

    ghost invariant = { λ f. IsKept f.text.now f.parsed };
}

impl<'t> TomlFile<'t> {
    /// The file of this text.
    pub fn parse(alloc: Global, text: &'t str) -> Result<TomlFile<'t>, AllocError>
        ensures { IfOk result (λ file. file ≡ text.now) }
    {
        match toml::table_from_str(alloc, text) {
            Ok(table) => Ok(TomlFile {
                text,
                parsed: Ok(Value::Table(table)),
            }),
            Err(error) if error.is_memory() => Err(AllocError),
            Err(error) => Ok(TomlFile {
                text,
                parsed: Err(error),
            }),
        }
    }

    /// The text.
    pub fn text(&self) -> &'t str
        ensures { result.now ≡ self.now }
    {
        self.text
    }

    /// Its tree, a table; or where and why the text is no TOML.
    pub fn tree(&self) -> Result<&Value, &Error>
        ensures { MatchResult result (λ tree. IsTree self.now tree.now) (λ _. IsNoToml self.now) }
    {
        match &self.parsed {
            Ok(tree) => Ok(tree),
            Err(error) => Err(error),
        }
    }
}
