//! What the exceptions mean with which devices answer writes.
use modbus_frame::Exception;

/// Why a device doesn't take a write that it answers so (Modbus Application Protocol V1.1b3, section 7); or, without an exception,
/// by what is no answer to it.
pub(crate) fn refusal_words(exception: Option<Exception>) -> &'static str {
    match exception {
        Some(exception) => exception_words(exception),
        None => "what its device answers is no answer to the write",
    }
}

fn exception_words(exception: Exception) -> &'static str {
    match exception.0 {
        1 => "its device has no such function",
        2 => "its device has no such registers to write",
        3 => "its device doesn't take this number",
        4 => "its device failed to do it",
        5 => "its device says that it takes a while",
        6 => "its device is busy",
        8 => "the memory of its device is faulty",
        10 => "its gateway has no path to the device",
        11 => "its gateway gets no answer from the device",
        _ => "its device doesn't take it, for a reason of its own",
    }
}
