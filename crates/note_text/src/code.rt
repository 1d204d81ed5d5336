//! A program's text without its comments.
use std::alloc::{AllocError, Global};

/// A program's text in which blanks stand in place of the comments, so that each byte keeps its place.
#[derive(Drop)]
pub struct Code {
    pub text: String,
    /// Where the comment opens that isn't closed.
    pub open: Option<usize>,
}

/// Where a letter stands.
#[derive(Clone, Copy, PartialEq, Eq)]
enum CodePlace {
    Outside,
    /// An opening parenthesis, which may begin a comment.
    Bracket,
    Inside,
    /// Inside, after a star.
    Star,
    /// The end of a comment.
    End,
}

impl Code {
    /// The code of a text.
    pub fn of(alloc: Global, text: &str) -> Result<Code, AllocError> {
        let mut code = String::new(alloc);
        let mut open = 0;
        let mut place = CodePlace::Outside;
        for letter in text.chars() {
            let next = next_place(place, letter);
            if place == CodePlace::Bracket && next == CodePlace::Inside {
                let _ = code.pop();
                open = code.len();
                code.push(' ')?;
            }
            push_letter(&mut code, next, letter)?;
            place = next;
        }
        let open = match place {
            CodePlace::Inside | CodePlace::Star => Some(open),
            CodePlace::Outside | CodePlace::Bracket | CodePlace::End => None,
        };
        Ok(Code { text: code, open })
    }
}

fn next_place(place: CodePlace, letter: char) -> CodePlace {
    match place {
        CodePlace::Bracket if letter == '*' => CodePlace::Inside,
        CodePlace::Outside | CodePlace::Bracket | CodePlace::End => {
            if letter == '(' {
                CodePlace::Bracket
            } else {
                CodePlace::Outside
            }
        }
        CodePlace::Star if letter == ')' => CodePlace::End,
        CodePlace::Inside | CodePlace::Star => {
            if letter == '*' {
                CodePlace::Star
            } else {
                CodePlace::Inside
            }
        }
    }
}

/// Appends a letter of the code, or a blank for each byte of a comment's.
fn push_letter(code: &mut String, place: CodePlace, letter: char) -> Result<(), AllocError> {
    let is_code = match place {
        CodePlace::Outside | CodePlace::Bracket => true,
        CodePlace::Inside | CodePlace::Star | CodePlace::End => letter == '\n' || letter == '\r',
    };
    if is_code {
        return code.push(letter);
    }
    for _ in 0..letter.len_utf8() {
        code.push(' ')?;
    }
    Ok(())
}
