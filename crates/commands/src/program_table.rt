//! What `explain` prints beside a program's lines, which others word.
use il_reader::Program;
use scan_code::Image;
use site_model::Site;
use std::alloc::{AllocError, Global};

/// Who words the lines that `explain` prints before a refusal's own; contracts don't say which they are.
pub trait ProgramTable {
    /// The lines of a program's text with what is told beside them, to the end, or to the instruction that is refused, by
    /// its number.
    fn lines(
        &self,
        alloc: Global,
        text: &str,
        program: &Program,
        image: &Image,
        site: &Site,
        refused: Option<usize>,
    ) -> Result<String, AllocError>;
}
