// What stands in a line between blanks, one field after the other.
ghost use Rattle.std.specs.Prelude.{◌≡◌, ◌≤◌, ◌+◌, [], ◌∷◌, length, MatchResult};
ghost use Rattle.std.specs.List.{position_or_len, prefix_len};
ghost use Rattle.trace_text.specs.Fields.{field, is_blank, left_behind, whole};
ghost use Rattle.trace_text.specs.Grammar.{alignment_in, behind, count_in, end_then, name_in, next, number_in, octets_in, path_in};

use crate::LineFault;
use crate::values::{number_to, read_alignment, read_count, read_octets, read_path};
use heap_core::{Octets, Path};
use std::marker::Model;

/// A field's bytes, and the column of the first, counted from 1.
#[derive(Clone, Copy, Drop)]
pub(crate) struct Field<'a> {
    pub(crate) column: u32,
    pub(crate) text: &'a [u8],
}

/// A cursor over the fields of a line.
#[derive(Drop)]
pub(crate) struct Fields<'a> {
    line: &'a [u8],
    position: usize,
}

impl<'a> Model for Fields<'a> {
    ghost use Rattle.std.specs.Prelude.{◌≤◌, length};
    ghost use Rattle.trace_text.specs.Fields.{Left, left_behind};

    ghost Value = { Left };

    ghost view = { λ s. left_behind s.line.now s.position };

    ghost invariant = { λ s. (length s.line.now ≤ 256) × (s.position ≤ length s.line.now) };
}

fn is_blank(byte: u8) -> bool
    ensures { result ≡ is_blank byte }
{
    byte == b' ' || byte == b'\t'
}

// How many blanks stand in front.
fn blanks_len(text: &[u8]) -> usize
    ensures within { result ≤ length text.now }
    ensures len { result ≡ prefix_len is_blank text.now }
{
    let mut len = 0;
    while len < text.len() && is_blank(text[len]) {
        len += 1;
    }
    len
}

// How many bytes stand in front of the first blank.
fn word_len(text: &[u8]) -> usize
    ensures within { result ≤ length text.now }
    ensures len { result ≡ position_or_len is_blank text.now }
{
    let mut len = 0;
    while len < text.len() && !is_blank(text[len]) {
        len += 1;
    }
    len
}

impl<'a> Fields<'a> {
    /// The fields of a line of at most 256 bytes.
    pub(crate) fn of(line: &'a [u8]) -> Fields<'a>
        requires { length line.now ≤ 256 }
        ensures { result ≡ whole line.now }
    {
        Fields { line, position: 0 }
    }

    /// The next field, or the fault that the line ends.
    pub(crate) fn next_field(&mut self) -> Result<Field<'a>, LineFault>
        ensures field { MatchResult result (λ f. self.old.fields ≡ field f.column f.text.now ∷ self.new.fields) (λ fault. (self.old.fields ≡ []) × (fault ≡ LineFault.BadLine self.old.end)) }
        ensures left { self.new ≡ behind self.old }
    {
        let start = self.position + blanks_len(&self.line[self.position..]);
        let len = word_len(&self.line[start..]);
        self.position = start + len;
        let column = start as u32 + 1;
        if len == 0 {
            return Err(LineFault::BadLine { column });
        }
        Ok(Field {
            column,
            text: &self.line[start..start + len],
        })
    }

    /// The name that comes next.
    pub(crate) fn name(&mut self) -> Result<u32, LineFault>
        ensures read { result ≡ next name_in self.old }
        ensures left { self.new ≡ behind self.old }
    {
        let field = self.next_field()?;
        let name = number_to(u64::from(u32::MAX), field)?;
        Ok(name as u32)
    }

    /// The number that comes next.
    pub(crate) fn number(&mut self) -> Result<u64, LineFault>
        ensures read { result ≡ next number_in self.old }
        ensures left { self.new ≡ behind self.old }
    {
        let field = self.next_field()?;
        number_to(u64::MAX, field)
    }

    /// The alignment that comes next.
    pub(crate) fn alignment(&mut self) -> Result<u64, LineFault>
        ensures read { result ≡ next alignment_in self.old }
        ensures left { self.new ≡ behind self.old }
    {
        let field = self.next_field()?;
        read_alignment(field)
    }

    /// The count of bytes to be read that comes next.
    pub(crate) fn count(&mut self) -> Result<u64, LineFault>
        ensures read { result ≡ next count_in self.old }
        ensures left { self.new ≡ behind self.old }
    {
        let field = self.next_field()?;
        read_count(field)
    }

    /// The path that comes next.
    pub(crate) fn path(&mut self) -> Result<Path, LineFault>
        ensures read { result ≡ next path_in self.old }
        ensures left { self.new ≡ behind self.old }
    {
        let field = self.next_field()?;
        read_path(field)
    }

    /// The bytes that come next.
    pub(crate) fn octets(&mut self) -> Result<Octets, LineFault>
        ensures read { result ≡ next octets_in self.old }
        ensures left { self.new ≡ behind self.old }
    {
        let field = self.next_field()?;
        read_octets(field)
    }

    /// Nothing comes next.
    pub(crate) fn end(&mut self) -> Result<(), LineFault>
        ensures { result ≡ end_then self.old tt }
    {
        match self.next_field() {
            Ok(field) => Err(LineFault::BadLine {
                column: field.column,
            }),
            Err(_) => Ok(()),
        }
    }
}
