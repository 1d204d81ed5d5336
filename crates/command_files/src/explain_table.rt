//! What `explain` prints beside the lines of a program.
use commands::ProgramTable;
use il_reader::Program;
use program_notes::{Beside, table_of};
use scan_code::Image;
use site_model::Site;
use std::alloc::{AllocError, Global};

/// The instructions of each line, and except for a listing what the verdict knows before them.
#[derive(Clone, Copy)]
pub struct ExplainTable {
    pub listing: bool,
}

impl ProgramTable for ExplainTable {
    fn lines(
        &self,
        alloc: Global,
        text: &str,
        program: &Program,
        image: &Image,
        site: &Site,
        refused: Option<usize>,
    ) -> Result<String, AllocError> {
        let beside = if self.listing {
            Beside::Instructions
        } else {
            Beside::Known
        };
        table_of(alloc, text, program, image, site, refused, beside)
    }
}
