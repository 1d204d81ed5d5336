//! Who may write, where that is everybody.
use service_texts::Writer;

/// What is told where every address may write.
const EVERYBODY: &str = "'--write-from' has every address: whoever reaches this port may write\n";

/// Says on standard error that every client may write, where that is so. Where it can't be printed, nothing comes of it.
pub(crate) fn warn_of_everybody(rt: &impl Eprint, writers: &[Writer]) {
    if writers.iter().any(is_everybody) {
        let _ = rt.eprint(EVERYBODY);
    }
}

/// Whether these are the clients at all addresses.
fn is_everybody(writer: &Writer) -> bool {
    match writer {
        Writer::Within(_, bits) => *bits == 0,
        Writer::At(_) => false,
    }
}
