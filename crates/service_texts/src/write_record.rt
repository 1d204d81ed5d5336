//! Whether the writes of a file go well.
ghost use Rattle.std.specs.Prelude.{◌≡◌, false, not, option_map};
ghost use Rattle.service_texts.specs.Lines.{change_word};

/// How the last write of a file went.
#[derive(Clone, Copy)]
pub struct WriteRecord {
    has_failed: bool,
}

impl WriteRecord {
    /// None failed so far.
    pub fn new() -> WriteRecord
        ensures { result.has_failed ≡ false }
    {
        WriteRecord { has_failed: false }
    }

    /// Whether the last one failed.
    pub fn has_failed(&self) -> bool
        ensures { result ≡ self.now.has_failed }
    {
        self.has_failed
    }

    /// One more is made; the word by which that is told, where it went otherwise than the last one.
    pub fn note(&mut self, is_written: bool) -> Option<&'static str>
        ensures word { option_map (λ word. word.now) result ≡ change_word self.old.has_failed is_written }
        ensures failed { self.new.has_failed ≡ not is_written }
    {
        let had_failed = self.has_failed;
        self.has_failed = !is_written;
        match (had_failed, is_written) {
            (false, false) => Some("unwritten"),
            (true, true) => Some("written"),
            _ => None,
        }
    }
}
