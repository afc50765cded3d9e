//! A bounded line of text, and numbers in it.
#![tactic(auto)]

ghost use Rattle.std.specs.Prelude.{◌≡◌, ◌≤◌, ◌+◌, ◌++◌, decimal};
ghost use Rattle.arrayvec.specs.ArrayString.{array_string_len};

use arrayvec::ArrayString;
use itoa::Buffer;

/// A line of text, of at most 512 bytes.
pub type Line = ArrayString<512>;

/// Appends a number in digits, with no zero in front, to a line that has room for the 20 of the longest.
pub fn push_number(line: &mut Line, number: u64)
    requires { array_string_len line.old + 20 ≤ 512 }
    ensures bytes { line.new.bytes ≡ line.old.bytes ++ decimal number }
    ensures len { array_string_len line.new ≤ array_string_len line.old + 20 }
{
    let mut buffer = Buffer::new();
    line.push_str(buffer.format(number));
}
