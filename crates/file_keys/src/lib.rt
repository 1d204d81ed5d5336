//! What the readers of files share: a text with its tree, the keys of TOML tables, and the part of a file that breaks a rule.
#![tactic(auto)]

mod keys;
mod place;
mod toml_file;

// a text with its tree
pub use toml_file::TomlFile;
// the keys of a table
pub use keys::{
    base_of, byte_of, flag_or, has_over, is_more, list_at, number_at, number_or, numbers_in,
    optional_number_at, optional_text_at, optional_texts_at, section_at, text_at, texts_in,
};
// a fault and its part
pub use place::Placed;
