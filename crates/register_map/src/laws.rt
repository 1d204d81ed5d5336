//! What makes the definitions of a map believable.
ghost use Rattle.register_map.specs.Laws.{LaidOutIsRead, ReadsHaveOneResult, WordsHaveOneMap};

/// Words that are laid out as a map are read as it.
pub fn laid_out_is_read()
    ensures { LaidOutIsRead }
{}

/// A list of words is one map, or has one fault.
pub fn words_have_one_map()
    ensures { WordsHaveOneMap }
{}

/// Reads with their answers have one result.
pub fn reads_have_one_result()
    ensures { ReadsHaveOneResult }
{}
