//! From bytes to tokens, a byte at a time.
ghost use Rattle.std.specs.Prelude.{◌≡◌, ◌≤◌, ◌<◌, Err, Some};
ghost use Rattle.point_types.specs.Name.{folded, is_digit, is_letter, is_name_byte};
ghost use Rattle.point_types.specs.Value.{high_of, is_within, low_of};
ghost use Rattle.il_reader.specs.Reading.{is_label};
ghost use Rattle.il_reader.specs.Tokens.{and_byte, and_n_byte, and_token, at_end, based, behind_blank, colon_comes, ended_by, fails, first_byte, first_digit, gives, grown, grows, is_colon, keyword, lexed, limits_of, literal_type, mark_of, number_byte, number_ended, number_stands, number_token, opening_of, sign_byte, stands, typed_byte, word_byte, word_ended, word_grown, word_token};

use crate::fault::ReadFaultKind;
use crate::keyword::{find_keyword, token_of_word};
use crate::lexeme::Lexeme;
use crate::numeral::Spelling;
use crate::text::{is_decimal_digit, is_word_letter};
use crate::token::{Keyword, Token};
use point_types::{IlType, Operator, lower_case};

/// What stands open between two bytes of a text.
#[derive(Drop)]
pub(crate) enum Mode {
    /// Nothing.
    Clear,
    /// An opening parenthesis, which may begin a comment.
    Bracket,
    Comment,
    /// A comment, after a star.
    Star,
    /// A carriage return, which wants its line feed.
    Carriage,
    Colon,
    /// The first of two dots.
    Dot,
    /// `&`, which N may follow.
    And,
    /// `&N`, which is one operator where no word goes on with it.
    AndNot,
    /// A sign, which wants a digit: minus where true.
    Sign(bool),
    /// A word in lower case, and whether an underscore stands last.
    Word(Lexeme, bool),
    /// A type of whole numbers and `#`, which want a number.
    Typed(IlType),
    /// A number: its type where one stands before it, its spelling, its value so far, and whether
    /// it wants a digit.
    Number(Option<IlType>, Spelling, i64, bool),
}

/// What a byte makes of a text: the token that it ends, the token that is whole with it, and what
/// stands open after it.
#[derive(Drop)]
pub(crate) struct Lexed {
    pub ended: Option<Token>,
    pub own: Option<Token>,
    pub mode: Mode,
}

/// Why a byte can't follow: the token that it has ended, and the fault where that token can stand.
#[derive(Clone, Copy)]
pub(crate) struct ByteFault {
    pub ended: Option<Token>,
    pub kind: ReadFaultKind,
}

impl Mode {
    /// Reads one byte.
    pub fn feed(self, byte: u8) -> Result<Lexed, ByteFault>
        ensures { result ≡ lexed self byte }
    {
        match self {
            Mode::Clear => read_first(byte),
            Mode::Word(word, gap) => read_behind_word(word, gap, byte),
            Mode::Number(kind, spelling, value, wanting) => {
                read_behind_digits(kind, spelling, value, wanting, byte)
            }
            Mode::Typed(kind) => read_behind_type(kind, byte),
            Mode::Sign(negative) => read_behind_sign(negative, byte),
            Mode::And => read_behind_and(byte),
            Mode::AndNot => read_behind_and_not(byte),
            Mode::Bracket if byte == b'*' => Ok(opens(Mode::Comment)),
            Mode::Bracket => behind(Token::Open, read_first(byte)),
            Mode::Comment if byte == b'*' => Ok(opens(Mode::Star)),
            Mode::Comment => Ok(opens(Mode::Comment)),
            Mode::Star => Ok(opens(behind_star(byte))),
            Mode::Carriage if byte == b'\n' => Ok(is_token(Token::LineEnd)),
            Mode::Carriage => Err(fails(ReadFaultKind::Word)),
            Mode::Colon if byte == b'=' => Ok(is_token(Token::Assign)),
            Mode::Colon => behind(Token::Colon, read_first(byte)),
            Mode::Dot if byte == b'.' => Ok(is_token(Token::Dots)),
            Mode::Dot => Err(fails(ReadFaultKind::Word)),
        }
    }

    /// Whether a colon comes next in these bytes, after blanks; `:=` is no colon.
    pub(crate) fn is_before_colon(self, bytes: &[u8]) -> bool
        ensures { result ≡ colon_comes self bytes.now }
    {
        let mut mode = self;
        let mut rest = bytes;
        while let [byte, after @ ..] = rest {
            if mode.is_colon() {
                return *byte != b'=';
            }
            match behind_blank(mode.feed(*byte)) {
                Some(next) => mode = next,
                None => return false,
            }
            rest = after;
        }
        mode.is_colon()
    }

    /// Whether nothing stands open.
    pub(crate) fn is_clear(&self) -> bool {
        match self {
            Mode::Clear => true,
            _ => false,
        }
    }

    fn is_colon(&self) -> bool
        ensures { result ≡ is_colon self.now }
    {
        match self {
            Mode::Colon => true,
            _ => false,
        }
    }

    /// The token that stands open at the end of the text, or none. What could still grow to a token
    /// is Header, an open comment Word.
    pub(crate) fn finish(self) -> Result<Option<Token>, ReadFaultKind>
        ensures { result ≡ at_end self }
    {
        match self {
            Mode::Clear => Ok(None),
            Mode::Word(word, _) => match token_of_word(word.as_bytes()) {
                Some(token) => Ok(Some(token)),
                None => Err(ReadFaultKind::Header),
            },
            Mode::Number(kind, spelling, value, false) => {
                Ok(Some(token_of_number(kind, spelling, value)))
            }
            Mode::And => Ok(Some(token_of_and(false))),
            Mode::AndNot => Ok(Some(token_of_and(true))),
            Mode::Bracket => Ok(Some(Token::Open)),
            Mode::Colon => Ok(Some(Token::Colon)),
            Mode::Comment | Mode::Star => Err(ReadFaultKind::Word),
            Mode::Number(_, _, _, true)
            | Mode::Typed(_)
            | Mode::Sign(_)
            | Mode::Carriage
            | Mode::Dot => Err(ReadFaultKind::Header),
        }
    }
}

impl Lexed {
    /// Whether the byte has ended a name whose colon comes next in the bytes after it.
    pub fn is_label(self, behind: &[u8]) -> bool
        ensures { result ≡ is_label self behind.now }
    {
        match (self.ended, self.own) {
            (Some(Token::Name(_)), None) => self.mode.is_before_colon(behind),
            _ => false,
        }
    }
}

// What stands open after a byte that ends no token and is none.
fn behind_blank(read: Result<Lexed, ByteFault>) -> Option<Mode>
    ensures { result ≡ behind_blank read }
{
    match read {
        Ok(
            Lexed {
                ended: None,
                own: None,
                mode,
            },
        ) => Some(mode),
        _ => None,
    }
}

// No token ends, and none is whole.
fn opens(mode: Mode) -> Lexed
    ensures { Ok result ≡ stands mode }
{
    Lexed {
        ended: None,
        own: None,
        mode,
    }
}

// The token is whole, and none stood open before it.
fn is_token(token: Token) -> Lexed
    ensures { Ok result ≡ gives token }
{
    Lexed {
        ended: None,
        own: Some(token),
        mode: Mode::Clear,
    }
}

// The byte can't follow, and has ended no token.
fn fails(kind: ReadFaultKind) -> ByteFault
    ensures { Err result ≡ fails kind }
{
    ByteFault { ended: None, kind }
}

// The token has ended before the byte that was read.
fn behind(token: Token, next: Result<Lexed, ByteFault>) -> Result<Lexed, ByteFault>
    ensures { result ≡ ended_by token next }
{
    match next {
        Ok(
            Lexed {
                ended: _,
                own,
                mode,
            },
        ) => Ok(Lexed {
            ended: Some(token),
            own,
            mode,
        }),
        Err(fault) => Err(ByteFault {
            ended: Some(token),
            kind: fault.kind,
        }),
    }
}

// A byte where nothing is open.
fn read_first(byte: u8) -> Result<Lexed, ByteFault>
    ensures { result ≡ first_byte byte }
{
    let lower = lower_case(byte);
    if is_word_letter(lower) {
        Ok(opens(Mode::Word(Lexeme::of_byte(lower), lower == b'_')))
    } else if is_decimal_digit(byte) {
        read_first_digit(None, byte)
    } else {
        read_opening(byte)
    }
}

// Blanks, and what begins a token of several bytes.
fn read_opening(byte: u8) -> Result<Lexed, ByteFault>
    ensures { result ≡ opening_of byte }
{
    match byte {
        b' ' | b'\t' => Ok(opens(Mode::Clear)),
        b'\r' => Ok(opens(Mode::Carriage)),
        b'(' => Ok(opens(Mode::Bracket)),
        b':' => Ok(opens(Mode::Colon)),
        b'.' => Ok(opens(Mode::Dot)),
        b'&' => Ok(opens(Mode::And)),
        b'+' => Ok(opens(Mode::Sign(false))),
        b'-' => Ok(opens(Mode::Sign(true))),
        _ => read_mark(byte),
    }
}

// Tokens of one byte.
fn read_mark(byte: u8) -> Result<Lexed, ByteFault>
    ensures { result ≡ mark_of byte }
{
    match byte {
        b'\n' => Ok(is_token(Token::LineEnd)),
        b',' => Ok(is_token(Token::Comma)),
        b';' => Ok(is_token(Token::Semicolon)),
        b')' => Ok(is_token(Token::Close)),
        b'{' => Ok(is_token(Token::OpenBrace)),
        b'}' => Ok(is_token(Token::CloseBrace)),
        _ => Err(fails(ReadFaultKind::Word)),
    }
}

// What stands open in a comment, after a star and a byte.
fn behind_star(byte: u8) -> Mode
    ensures { Ok (record { ended = None; own = None; mode = result }) ≡ lexed Mode.Star byte }
{
    match byte {
        b')' => Mode::Clear,
        b'*' => Mode::Star,
        _ => Mode::Comment,
    }
}

// A byte after `&`.
fn read_behind_and(byte: u8) -> Result<Lexed, ByteFault>
    ensures { result ≡ and_byte byte }
{
    if byte == b'N' || byte == b'n' {
        Ok(opens(Mode::AndNot))
    } else {
        behind(token_of_and(false), read_first(byte))
    }
}

// A byte after `&N`: what goes on with the N is a word.
fn read_behind_and_not(byte: u8) -> Result<Lexed, ByteFault>
    ensures { result ≡ and_n_byte byte }
{
    let lower = lower_case(byte);
    if is_word_letter(lower) || is_decimal_digit(lower) {
        behind(
            token_of_and(false),
            read_behind_word(Lexeme::of_byte(b'n'), false, byte),
        )
    } else {
        behind(token_of_and(true), read_first(byte))
    }
}

// AND, or ANDN where negated.
fn token_of_and(negated: bool) -> Token
    ensures { result ≡ and_token negated }
{
    Token::Keyword(Keyword::Apply(Operator::And, negated))
}

// A byte after a word.
fn read_behind_word(word: Lexeme, gap: bool, byte: u8) -> Result<Lexed, ByteFault>
    ensures { result ≡ word_byte word gap byte }
{
    let lower = lower_case(byte);
    if is_word_letter(lower) || is_decimal_digit(lower) {
        lengthen_word(word, gap, lower)
    } else if byte == b'#' {
        match literal_type_of(find_keyword(word.as_bytes())) {
            Some(kind) => Ok(opens(Mode::Typed(kind))),
            None => Err(fails(ReadFaultKind::Word)),
        }
    } else {
        match token_of_word(word.as_bytes()) {
            Some(token) => behind(token, read_first(byte)),
            None => Err(fails(ReadFaultKind::Word)),
        }
    }
}

// One more character of a word, which has 32 at most and no two underscores in a row.
fn lengthen_word(word: Lexeme, gap: bool, lower: u8) -> Result<Lexed, ByteFault>
    ensures { result ≡ word_grown word gap lower }
{
    if gap && lower == b'_' {
        return Err(fails(ReadFaultKind::Word));
    }
    match word.with(lower) {
        Some(longer) => Ok(opens(Mode::Word(longer, lower == b'_'))),
        None => Err(fails(ReadFaultKind::Word)),
    }
}

// The type of the literals that a word and `#` begin.
fn literal_type_of(keyword: Option<Keyword>) -> Option<IlType>
    ensures { result ≡ literal_type keyword }
{
    match keyword {
        Some(Keyword::Type(IlType::Bool)) => None,
        Some(Keyword::Type(kind)) => Some(kind),
        _ => None,
    }
}

// A byte after a type and `#`.
fn read_behind_type(kind: IlType, byte: u8) -> Result<Lexed, ByteFault>
    ensures { result ≡ typed_byte kind byte }
{
    if is_decimal_digit(byte) {
        read_first_digit(Some(kind), byte)
    } else if byte == b'+' || byte == b'-' {
        let spelling = Spelling::Signed(byte == b'-');
        Ok(opens(Mode::Number(Some(kind), spelling, 0, true)))
    } else {
        Err(fails(ReadFaultKind::Literal))
    }
}

// A byte after a sign.
fn read_behind_sign(negative: bool, byte: u8) -> Result<Lexed, ByteFault>
    ensures { result ≡ sign_byte negative byte }
{
    if is_decimal_digit(byte) {
        lengthen_number(None, Spelling::Signed(negative), 0, byte - b'0')
    } else {
        Err(fails(ReadFaultKind::Word))
    }
}

// The first digit of a number without a sign. After a zero no base can follow.
fn read_first_digit(kind: Option<IlType>, byte: u8) -> Result<Lexed, ByteFault>
    requires { 48 ≤ byte }
    ensures { result ≡ first_digit kind byte }
{
    if byte == b'0' {
        hold_number(kind, Spelling::Decimal, 0)
    } else {
        hold_number(kind, Spelling::Plain, i64::from(byte - b'0'))
    }
}

// A byte after the digits of a number, or where it wants one.
fn read_behind_digits(
    kind: Option<IlType>,
    spelling: Spelling,
    value: i64,
    wanting: bool,
    byte: u8,
) -> Result<Lexed, ByteFault>
    ensures { result ≡ number_byte kind spelling value wanting byte }
{
    match spelling.digit(byte) {
        Some(digit) => lengthen_number(kind, spelling, value, digit),
        None if wanting => Err(fails(ReadFaultKind::Literal)),
        None => end_digits(kind, spelling, value, byte),
    }
}

// A byte after a digit of a number that is no digit of it.
fn end_digits(
    kind: Option<IlType>,
    spelling: Spelling,
    value: i64,
    byte: u8,
) -> Result<Lexed, ByteFault>
    ensures { result ≡ number_ended kind spelling value byte }
{
    let lower = lower_case(byte);
    if byte == b'_' {
        Ok(opens(Mode::Number(kind, spelling.parted(), value, true)))
    } else if byte == b'#' {
        match spelling.base(value) {
            Some(base) => Ok(opens(Mode::Number(kind, Spelling::Based(base), 0, true))),
            None => Err(fails(ReadFaultKind::Literal)),
        }
    } else if is_word_letter(lower) || is_decimal_digit(lower) {
        Err(fails(ReadFaultKind::Literal))
    } else {
        behind(token_of_number(kind, spelling, value), read_first(byte))
    }
}

// One more digit of a number, which stays in its type.
fn lengthen_number(
    kind: Option<IlType>,
    spelling: Spelling,
    value: i64,
    digit: u8,
) -> Result<Lexed, ByteFault>
    ensures { result ≡ number_stands kind spelling (grown spelling value digit) }
{
    match i64::try_from(spelling.grow(value, digit)) {
        Ok(longer) => hold_number(kind, spelling, longer),
        Err(_) => Err(fails(ReadFaultKind::Literal)),
    }
}

// A number, where it lies in its type.
fn hold_number(kind: Option<IlType>, spelling: Spelling, value: i64) -> Result<Lexed, ByteFault>
    ensures { result ≡ number_stands kind spelling value }
{
    let limits = limits(kind);
    if limits.low() <= value && value <= limits.high() {
        Ok(opens(Mode::Number(kind, spelling, value, false)))
    } else {
        Err(fails(ReadFaultKind::Literal))
    }
}

// The type in which a literal lies: LINT where it has none of its own.
fn limits(kind: Option<IlType>) -> IlType
    ensures { result ≡ limits_of kind }
{
    match kind {
        Some(kind) => kind,
        None => IlType::Lint,
    }
}

fn token_of_number(kind: Option<IlType>, spelling: Spelling, value: i64) -> Token
    ensures { result ≡ number_token kind spelling value }
{
    match (kind, spelling) {
        (Some(kind), _) => Token::Typed(kind, value),
        (None, Spelling::Plain | Spelling::Decimal) => Token::Decimal(value),
        (None, Spelling::Signed(_) | Spelling::Based(_)) => Token::Number(value),
    }
}
