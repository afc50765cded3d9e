// The line that comes, as far as it was read.
ghost use Rattle.std.specs.Prelude.{◌≡◌, ◌≤◌, ◌+◌, length, [], IfSome, nat_eq};
ghost use Rattle.std.specs.List.{position};
ghost use Rattle.play_core.specs.Outcome.{most_input};

use arrayvec::ArrayVec;

// The most bytes of an input.
pub(crate) const MOST_INPUT: usize = 16_777_216;

// The number of the line, how many bytes stand before it, and its bytes so far.
#[derive(Drop)]
pub(crate) struct Reader {
    pub(crate) number: u64,
    pub(crate) before: usize,
    pub(crate) begun: ArrayVec<u8, 256>,
    ghost numbered: { number ≤ before + 1 },
    ghost within: { before + length begun.items ≤ 16777216 },
}

// Where the first newline stands.
fn first_newline(bytes: &[u8]) -> Option<usize>
    ensures { result ≡ position (λ byte. nat_eq byte 10) bytes.now }
{
    bytes.iter().position(|byte| *byte == b'\n')
}

impl Reader {
    ghost use Rattle.play_core.specs.Place.{BeginsLine};

    pub(crate) fn new() -> Reader
        ensures number { result.number ≡ 1 }
        ensures before { result.before ≡ 0 }
        ensures begun { result.begun.items ≡ [] }
    {
        Reader {
            number: 1,
            before: 0,
            begun: ArrayVec::new(),
        }
    }

    /// The line with which the bytes begin, where its newline is among them and it can be performed where it lies: nothing of it was
    /// taken before, and neither the line nor the input is too long with it.
    pub(crate) fn whole_line<'a>(&self, bytes: &'a [u8]) -> Option<&'a [u8]>
        ensures { IfSome result (λ line. BeginsLine self.now bytes.now line.now) }
    {
        if !self.begun.is_empty() {
            return None;
        }
        let len = first_newline(bytes)?;
        if len > 256 || self.before + len >= MOST_INPUT {
            return None;
        }
        Some(&bytes[..len])
    }

    /// Goes on behind a line of so many bytes, and its newline.
    pub(crate) fn pass_line(&mut self, len: usize)
        requires { self.old.before + len + 1 ≤ most_input }
        ensures number { self.new.number ≡ self.old.number + 1 }
        ensures before { self.new.before ≡ self.old.before + len + 1 }
        ensures begun { self.new.begun.items ≡ [] }
    {
        self.number += 1;
        self.before += len + 1;
        self.begun.clear();
    }
}
