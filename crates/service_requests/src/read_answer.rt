//! What a device told of its registers.
ghost use Rattle.std.specs.Prelude.{◌≡◌, length, Ok};
ghost use Rattle.register_map.specs.Reads.{answer_of};
ghost use Rattle.service_requests.specs.Searches.{answer_held, answer_of_words, answer_told, fitting};

use gateway::Outcome;
use register_map::ReadFault;

/// What a read of one or two registers gave.
#[derive(Clone, Copy, Default)]
pub(crate) enum ReadAnswer {
    One(u16),
    Two(u16, u16),
    Refused,
    #[default]
    Failed,
}

impl ReadAnswer {
    /// What an outcome tells: it failed where that is neither one or two registers nor an exception.
    pub(crate) fn by(outcome: &Outcome) -> ReadAnswer
        ensures { answer_told result ≡ answer_held outcome.now }
    {
        match outcome {
            Outcome::Words(words) => by_words(words.as_slice()),
            Outcome::Exception(_) => ReadAnswer::Refused,
            _ => ReadAnswer::Failed,
        }
    }

    /// Answers a read of so many registers.
    pub(crate) fn fill(self, out: &mut [u16]) -> Result<(), ReadFault>
        ensures { answer_of result out.new ≡ fitting (length out.old) (answer_told self) }
    {
        match self {
            ReadAnswer::One(word) => fill_with(&[word], out),
            ReadAnswer::Two(first, second) => fill_with(&[first, second], out),
            ReadAnswer::Refused => Err(ReadFault::Refused),
            ReadAnswer::Failed => Err(ReadFault::Failed),
        }
    }
}

/// Copies the words, where they are as many.
fn fill_with(words: &[u16], out: &mut [u16]) -> Result<(), ReadFault>
    ensures { answer_of result out.new ≡ fitting (length out.old) (Ok words.now) }
{
    if words.len() != out.len() {
        return Err(ReadFault::Failed);
    }
    out.copy_from_slice(words);
    Ok(())
}

fn by_words(words: &[u16]) -> ReadAnswer
    ensures { answer_told result ≡ answer_of_words words.now }
{
    match words {
        [word] => ReadAnswer::One(*word),
        [first, second] => ReadAnswer::Two(*first, *second),
        _ => ReadAnswer::Failed,
    }
}
