//! Laws: the reader takes exactly the texts of the grammar.
ghost use Rattle.il_reader.specs.Laws.{AtMostOneProgram, EarlyEndIsInTheLastLine, FaultIsInTheFirstLine, ReadingIsExact, TokensAreLexemes};

/// The tokens that are found byte by byte are those that a text's pieces spell.
pub fn tokens_are_lexemes()
    ensures { TokensAreLexemes }
{}

/// A text is read exactly where it spells a program and keeps to the limit on its size, and to that
/// program.
pub fn reading_is_exact()
    ensures { ReadingIsExact }
{}

/// A text spells one program at most.
pub fn at_most_one_program()
    ensures { AtMostOneProgram }
{}

/// A refused line is the first one with which the text begins no program text.
pub fn fault_is_in_the_first_line()
    ensures { FaultIsInTheFirstLine }
{}

/// Where a text ends too soon, the line is its last byte's, and its whole lines begin a program text.
pub fn early_end_is_in_the_last_line()
    ensures { EarlyEndIsInTheLastLine }
{}
