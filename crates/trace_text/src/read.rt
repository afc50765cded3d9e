// Lines read as calls.
ghost use Rattle.std.specs.Prelude.{◌≡◌, IfOk, IfSome};
ghost use Rattle.heap_core.specs.Performing.{IsCall};
ghost use Rattle.trace_text.specs.Fields.{field};
ghost use Rattle.trace_text.specs.Grammar.{letter_call, line_call, aligned_line, allocate_line, expand_line, free_all_line, free_line, good_line, owns_at_line, owns_line, read_line, reallocate_line, write_line};
ghost use Rattle.trace_text.specs.Spelling.{IsSayable};

use crate::LineFault;
use crate::fields::{Field, Fields};
use heap_core::Call;

// An allocation, by what stands behind its letter.
fn allocate(fields: &mut Fields<'_>) -> Result<Call, LineFault>
    ensures { result ≡ allocate_line fields.old }
{
    let name = fields.name()?;
    let size = fields.number()?;
    fields.end()?;
    Ok(Call::Allocate { name, size })
}

// An aligned allocation, by what stands behind its letter.
fn aligned(fields: &mut Fields<'_>) -> Result<Call, LineFault>
    ensures { result ≡ aligned_line fields.old }
{
    let name = fields.name()?;
    let size = fields.number()?;
    let align = fields.alignment()?;
    fields.end()?;
    Ok(Call::Aligned { name, size, align })
}

// An expansion, by what stands behind its letter.
fn expand(fields: &mut Fields<'_>) -> Result<Call, LineFault>
    ensures { result ≡ expand_line fields.old }
{
    let name = fields.name()?;
    let delta = fields.number()?;
    fields.end()?;
    Ok(Call::Expand { name, delta })
}

// A reallocation, by what stands behind its letter.
fn reallocate(fields: &mut Fields<'_>) -> Result<Call, LineFault>
    ensures { result ≡ reallocate_line fields.old }
{
    let name = fields.name()?;
    let size = fields.number()?;
    fields.end()?;
    Ok(Call::Reallocate { name, size })
}

// A free, by what stands behind its letter.
fn free(fields: &mut Fields<'_>) -> Result<Call, LineFault>
    ensures { result ≡ free_line fields.old }
{
    let name = fields.name()?;
    fields.end()?;
    Ok(Call::Free { name })
}

// A free of all, by what stands behind its letter.
fn free_all(fields: &mut Fields<'_>) -> Result<Call, LineFault>
    ensures { result ≡ free_all_line fields.old }
{
    fields.end()?;
    Ok(Call::FreeAll)
}

// A question to the root, by what stands behind its letter.
fn owns(fields: &mut Fields<'_>) -> Result<Call, LineFault>
    ensures { result ≡ owns_line fields.old }
{
    let name = fields.name()?;
    fields.end()?;
    Ok(Call::Owns { name })
}

// A question to another layer, by what stands behind its letter.
fn owns_at(fields: &mut Fields<'_>) -> Result<Call, LineFault>
    ensures { result ≡ owns_at_line fields.old }
{
    let name = fields.name()?;
    let path = fields.path()?;
    fields.end()?;
    Ok(Call::OwnsAt { name, path })
}

// A question for a size, by what stands behind its letter.
fn good(fields: &mut Fields<'_>) -> Result<Call, LineFault>
    ensures { result ≡ good_line fields.old }
{
    let size = fields.number()?;
    fields.end()?;
    Ok(Call::Good { size })
}

// A write, by what stands behind its letter.
fn write(fields: &mut Fields<'_>) -> Result<Call, LineFault>
    ensures { result ≡ write_line fields.old }
{
    let name = fields.name()?;
    let offset = fields.number()?;
    let bytes = fields.octets()?;
    fields.end()?;
    Ok(Call::Write {
        name,
        offset,
        bytes,
    })
}

// A read, by what stands behind its letter.
fn read(fields: &mut Fields<'_>) -> Result<Call, LineFault>
    ensures { result ≡ read_line fields.old }
{
    let name = fields.name()?;
    let offset = fields.number()?;
    let len = fields.count()?;
    fields.end()?;
    Ok(Call::Read { name, offset, len })
}

// The call of the first field, which is its letter, and of what stands behind it.
#[tactic(auto, unfolding(crate::specs::Grammar::letter_call))]
fn read_call(letter: Field<'_>, fields: &mut Fields<'_>) -> Result<Call, LineFault>
    ensures { result ≡ letter_call (field letter.entry.column letter.entry.text.now) fields.old }
{
    match letter.text {
        [b'a'] => allocate(fields),
        [b'l'] => aligned(fields),
        [b'e'] => expand(fields),
        [b'r'] => reallocate(fields),
        [b'f'] => free(fields),
        [b'z'] => free_all(fields),
        [b'o'] => owns(fields),
        [b'p'] => owns_at(fields),
        [b'g'] => good(fields),
        [b'w'] => write(fields),
        [b'd'] => read(fields),
        _ => Err(LineFault::BadLine {
            column: letter.column,
        }),
    }
}

/// Reads one line, without its newline. A line with no field, and one whose first field begins with `#`, is no call.
///
/// # Errors
/// `TooLong` for more than 256 bytes. Else the first field that is not as it should be decides: `NumberTooLarge` for
/// digits alone that say more than may stand there, and `BadLine` for all else, with the column of the field.
#[tactic(auto, unfolding(crate::specs::Grammar::line_call))]
pub fn read_line(line: &[u8]) -> Result<Option<Call>, LineFault>
    ensures read { result ≡ line_call line.now }
    ensures call { IfOk result (λ call. IfSome call IsCall) }
    ensures sayable { IfOk result (λ call. IfSome call IsSayable) }
{
    if line.len() > 256 {
        return Err(LineFault::TooLong);
    }
    let mut fields = Fields::of(line);
    match fields.next_field() {
        Ok(first) if !first.text.starts_with(b"#") => Ok(Some(read_call(first, &mut fields)?)),
        // A comment, or no field at all.
        _ => Ok(None),
    }
}
