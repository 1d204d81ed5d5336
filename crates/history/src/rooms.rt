//! Texts in rooms of one size.
ghost use Rattle.std.specs.Prelude.{◌≡◌, ℕ, ◌+◌, ◌<◌, ◌≤◌, take, length, string_bytes};
ghost use Rattle.std.specs.String.{string_capacity};
ghost use Rattle.std.specs.Str.{IsCharBoundary};
ghost use Rattle.history.specs.Events.{IsShownIn};

/// What stands for the end of a text that is too long.
const DOTS: &str = "..";

/// Puts a text into a room for so many bytes, cut where it is longer. No memory is taken.
pub(crate) fn put_text(room: &mut String, most: usize, text: &str)
    requires dots { 2 ≤ most }
    requires room { most ≤ string_capacity room.old }
    ensures shown { IsShownIn most text.now (string_bytes room.new) }
    ensures room { most ≤ string_capacity room.new }
{
    room.clear();
    if text.len() <= most {
        let _ = room.push_str(text);
        return;
    }
    let _ = room.push_str(front_of(text, most - DOTS.len()));
    let _ = room.push_str(DOTS);
}

/// The longest beginning of a text that has so many bytes at most, of whole letters.
fn front_of(text: &str, most: usize) -> &str
    ensures front { result.now ≡ take (length result.now) text.now }
    ensures fits { length result.now ≤ most }
    ensures whole { IsCharBoundary text.now (length result.now) }
    ensures longest { (more : ℕ) → length result.now < more → more ≤ most → IsCharBoundary text.now more → ⊥ }
{
    match text.split_at_checked(text.floor_char_boundary(most)) {
        Some((front, _)) => front,
        None => "",
    }
}
