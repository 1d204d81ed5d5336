//! Programs in words. Why one isn't read ([`told_of_unread`]), has no code ([`told_of_unassembled`]) or isn't accepted
//! ([`detail_of`]), by what is known there; where the carets stand; and what mends types that don't agree ([`mend_of`]).
//! What is known before each instruction, line by line, as a table ([`table_of`], over [`rows_of`]) or for another form
//! ([`listing_of`]); and which line and name an instruction has.
#![tactic(auto)]

mod budget;
mod code_lines;
mod comments;
mod declaring;
mod detail;
mod fault_words;
mod instructing;
mod items;
mod kinds;
mod limits;
mod line_index;
mod listing;
mod longest;
mod marks;
mod meeting;
mod mend_texts;
mod mending;
mod met;
mod mistakes;
mod nearest;
mod numbers;
mod pieces;
mod refusing;
mod reserved;
mod rows;
mod stacking;
mod table;
mod typing;
mod unassembled;
mod unknown;
mod unread;
mod uses;
mod wording;
mod words;

pub use code_lines::{
    address_of, declared_line, instruction_line, line_inside, name_in, number_at, tag_name,
};
pub use detail::{Detail, detail_of};
pub use fault_words::{FaultWords, Hint};
pub use listing::{ListedInstruction, ListedLine, Listing, listing_of};
pub use marks::{
    ends_line, mark_of_bytes, mark_of_unassembled, mark_of_unread, mark_of_unverified,
};
pub use mending::{Mend, MendPlace, Way};
pub use met::line_of_byte;
pub use refusing::{is_divided_by_zero, mend_of};
pub use rows::{Row, rows_of};
pub use table::{Beside, table_of};
pub use unassembled::{known_of_unassembled, told_of_unassembled};
pub use unread::told_of_unread;
pub use words::type_word;
