// Writing the text of a call.
ghost use Rattle.std.specs.Prelude.{◌≡◌, ℕ, ◌+◌, ◌≤◌, List, ◌∷◌, ◌++◌, length, drop, decimal};
ghost use Rattle.text_lines.specs.Calls.{call_text};

use itoa::write_digits;
use set_model::Call;

/// How many bytes a call's text and what stands behind it have at most.
const ROOM: usize = 32;

/// Writes a letter, a blank, a number and an end to the back of the buffer, and gives them.
fn write_keyed<'a>(letter: u8, key: u64, end: &[u8], buffer: &'a mut [u8; 32]) -> &'a [u8]
    requires { length end.now ≤ 8 }
    ensures { result.now ≡ letter ∷ 32 ∷ decimal key ++ end.now }
{
    let behind = ROOM - end.len();
    buffer[behind..].copy_from_slice(end);
    let digits = write_digits(key, buffer, behind);
    buffer[digits - 1] = b' ';
    buffer[digits - 2] = letter;
    &buffer[digits - 2..]
}

/// The text of a call and this end of at most 8 bytes behind it. It takes no memory.
pub fn write_call<'a>(call: Call, end: &[u8], buffer: &'a mut [u8; 32]) -> &'a [u8]
    requires { length end.now ≤ 8 }
    ensures { result.now ≡ call_text call ++ end.now }
{
    match call {
        Call::Insert(key) => write_keyed(b'i', key, end, buffer),
        Call::Remove(key) => write_keyed(b'r', key, end, buffer),
        Call::Search(key) => write_keyed(b's', key, end, buffer),
    }
}
