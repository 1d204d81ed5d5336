//! Which device it is, by its common model (SunSpec Device Information Model Specification, model 1).
ghost use Rattle.std.specs.Prelude.{◌≡◌, ◌≤◌, ◌+◌, length, take};
ghost use Rattle.modbus_frame.specs.Bytes.{word_bytes};
ghost use Rattle.service_requests.specs.Identity.{is_said_by, is_text, same_text, text_of};

use arrayvec::ArrayVec;

/// How many registers of the common model are read: from its ID on, up to the end of the serial number.
pub const COMMON_WORDS: u16 = 66;

/// Registers of a text.
const TEXT_WORDS: usize = 16;

/// What a device has to say of itself. Each text is the 16 registers of a SunSpec string: two bytes a register, the high one first, up
/// to the first zero; blanks at its end don't count.
#[derive(Clone, Copy, Debug, PartialEq, Eq)]
pub struct Identity {
    /// The maker (Mn), where it has to say that.
    pub maker: Option<[u16; 16]>,
    /// The model (Md).
    pub model: Option<[u16; 16]>,
    /// The serial number (SN).
    pub serial: Option<[u16; 16]>,
}

impl Identity {
    /// Whether the registers of a common model, from its ID on, say it. Where it says nothing of a text any text does.
    pub fn is_said_by(&self, words: &[u16]) -> bool
        ensures { result ≡ is_said_by self.now words.now }
    {
        match words {
            [id, _, texts @ ..] => {
                *id == 1
                    && texts.len() == 64
                    && is_text(&self.maker, texts, 0)
                    && is_text(&self.model, texts, 16)
                    && is_text(&self.serial, texts, 48)
            }
            _ => false,
        }
    }
}

/// Whether the text that begins at this register is that one, if any.
fn is_text(text: &Option<[u16; 16]>, words: &[u16], start: usize) -> bool
    requires { start + 16 ≤ length words.now }
    ensures { result ≡ is_text text.now words.now start }
{
    match text {
        Some(text) => same_text(text, &words[start..start + TEXT_WORDS]),
        None => true,
    }
}

/// Whether registers have the same text.
fn same_text(first: &[u16], second: &[u16]) -> bool
    requires first { length first.now ≤ 16 }
    requires second { length second.now ≤ 16 }
    ensures { result ≡ same_text first.now second.now }
{
    let first = bytes_of(first);
    let second = bytes_of(second);
    text_of(&first) == text_of(&second)
}

/// The bytes of registers, two a register, the high one first.
fn bytes_of(words: &[u16]) -> ArrayVec<u8, 32>
    requires { length words.now ≤ 16 }
    ensures { result.items ≡ word_bytes words.now }
{
    let mut bytes: ArrayVec<u8, 32> = ArrayVec::new();
    for word in words {
        bytes.try_extend_from_slice(&word.to_be_bytes()).unwrap();
    }
    bytes
}

/// A text: the bytes up to the first zero, without the blanks at its end.
fn text_of(bytes: &[u8]) -> &[u8]
    ensures { result.now ≡ text_of bytes.now }
{
    bytes.split_at(text_end(bytes)).0
}

/// How many bytes a text has.
fn text_end(bytes: &[u8]) -> usize
    ensures text { take result bytes.now ≡ text_of bytes.now }
    ensures within { result ≤ length bytes.now }
{
    let mut end = 0;
    let mut seen = 0;
    let mut rest = bytes;
    while let [byte, more @ ..] = rest {
        if *byte == 0 {
            return end;
        }
        seen += 1;
        if *byte != b' ' {
            end = seen;
        }
        rest = more;
    }
    end
}
