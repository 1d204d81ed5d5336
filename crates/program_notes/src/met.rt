//! Where a program can't be read: what stands before, and what is met.
use crate::pieces::TextPiece;
use il_reader::{FaultPlace, ReadFaultKind};
use std::alloc::{AllocError, Global};

/// What stands before a fault in a code, and what is met there.
#[derive(Clone, Copy)]
pub(crate) struct Met<'p, 'a> {
    pub kind: ReadFaultKind,
    pub code: &'a str,
    pub at: usize,
    pub before: &'p [TextPiece<'a>],
    /// What is at fault, and all after it.
    pub rest: &'p [TextPiece<'a>],
}

impl<'p, 'a> Met<'p, 'a> {
    /// What is met at a place of a code.
    pub(crate) fn at_place(
        code: &'a str,
        pieces: &'p [TextPiece<'a>],
        place: FaultPlace,
    ) -> Met<'p, 'a> {
        let mut count = 0;
        for (number, piece) in pieces.iter().enumerate() {
            if piece.behind() <= place.at {
                count = number.saturating_add(1);
            }
        }
        Met {
            kind: place.fault.kind,
            code,
            at: place.at,
            before: pieces.get(..count).unwrap_or(pieces),
            rest: behind(pieces, count),
        }
    }

    /// The piece that is met; none at the end of the text.
    pub(crate) fn piece(&self) -> Option<TextPiece<'a>> {
        self.rest.first().copied()
    }

    /// The text of what is met; empty at the end of the text.
    pub(crate) fn text(&self) -> &'a str {
        match self.rest.first() {
            Some(piece) => piece.text,
            None => "",
        }
    }

    /// Whether this word or mark is met.
    pub(crate) fn is(&self, word: &str) -> bool {
        self.text().eq_ignore_ascii_case(word)
    }

    /// Whether what is met begins with these characters.
    pub(crate) fn begins(&self, characters: &str) -> bool {
        match self.code.get(self.at..) {
            Some(rest) => rest.starts_with(characters),
            None => false,
        }
    }

    /// Whether the end of a line or of the text is met.
    pub(crate) fn ends(&self) -> bool {
        self.text() == "\n" || self.rest.is_empty()
    }

    /// What stands after what is met.
    pub(crate) fn next(&self) -> &'a str {
        match self.rest.get(1) {
            Some(piece) => piece.text,
            None => "",
        }
    }

    /// The last piece before, which may stand on an earlier line.
    pub(crate) fn last(&self) -> Option<TextPiece<'a>> {
        let mut last = None;
        for piece in self.before {
            if piece.text != "\n" {
                last = Some(*piece);
            }
        }
        last
    }

    /// What stands before on the same line of the body.
    pub(crate) fn line(&self) -> &'p [TextPiece<'a>] {
        let mut from = 0;
        for (number, piece) in self.before.iter().enumerate() {
            if piece.text == "\n" || piece.is("END_VAR") {
                from = number.saturating_add(1);
            } else if piece.is("PROGRAM") {
                from = number.saturating_add(2);
            }
        }
        behind(self.before, from)
    }

    /// What stands before in the same declaration.
    pub(crate) fn declaration(&self, alloc: Global) -> Result<Vec<TextPiece<'a>>, AllocError> {
        let mut pieces = Vec::new(alloc);
        for piece in self.before {
            if piece.is(";") || piece.is("VAR") || piece.is("VAR_EXTERNAL") || piece.is("END_VAR") {
                pieces.clear();
            } else if piece.text != "\n" {
                pieces.push(*piece)?;
            }
        }
        Ok(pieces)
    }

    /// The word that opened the block of declarations; none in the body.
    pub(crate) fn block(&self) -> Option<TextPiece<'a>> {
        let mut block = None;
        for piece in self.before {
            if piece.is("VAR") || piece.is("VAR_EXTERNAL") {
                block = Some(*piece);
            } else if piece.is("END_VAR") {
                block = None;
            }
        }
        block
    }

    /// What stands before in the body.
    pub(crate) fn body(&self) -> &'p [TextPiece<'a>] {
        let mut from = 0;
        for (number, piece) in self.before.iter().enumerate() {
            if piece.is("END_VAR") {
                from = number.saturating_add(1);
            }
        }
        behind(self.before, from)
    }

    /// The operator whose parenthesis is open; none where none is.
    pub(crate) fn opening(&self, alloc: Global) -> Result<Option<TextPiece<'a>>, AllocError> {
        let mut open = Vec::new(alloc);
        let mut last = None;
        for piece in self.body() {
            if piece.text == "(" {
                open.push(last)?;
            } else if piece.text == ")" {
                let _ = open.pop();
            }
            last = Some(*piece);
        }
        match open.pop() {
            Some(operator) => Ok(operator),
            None => Ok(None),
        }
    }
}

/// The pieces after so many.
fn behind<'p, 'a>(pieces: &'p [TextPiece<'a>], count: usize) -> &'p [TextPiece<'a>] {
    pieces.get(count..).unwrap_or(pieces)
}

/// The number of the line on which a byte of a code stands, counted from 1.
pub fn line_of_byte(code: &str, at: usize) -> u32 {
    let mut line = 1u32;
    for byte in code.as_bytes().iter().take(at) {
        if *byte == b'\n' {
            line = line.saturating_add(1);
        }
    }
    line
}
