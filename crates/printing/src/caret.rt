ghost use Rattle.std.specs.Prelude.{◌≡◌, ℕ, ◌<◌, ◌++◌, map, IfOk, string_bytes, OnOk};
ghost use Rattle.printing.specs.Carets.{shown, under, field_place, caret_place, marked, mark, refusal_text};

use crate::words::file_refusal;
use std::alloc::{AllocError, Global};
use text::cut::piece;
use text::fault::{FieldPlace, FileFault};

// A byte of the shown line.
fn shown(byte: u8) -> u8
    ensures { result ≡ shown byte }
{
    match byte {
        b'\t' | b' '..=b'~' => byte,
        _ => b'?',
    }
}

// A byte of the line under it.
fn under(byte: u8) -> u8
    ensures { result ≡ under byte }
{
    match byte {
        b'\t' => byte,
        _ => b' ',
    }
}

// Where a field of a line begins: past as many tabs, or at the line's end where there are fewer.
fn field_place(line: &[u8], field: usize) -> usize
    ensures { result ≡ field_place field line.now }
{
    line.split(|byte| *byte == b'\t')
        .take(field)
        .map(|piece| piece.len() + 1)
        .sum::<usize>()
        .min(line.len())
}

// The place of a fault in its line: past the longest lawful beginning of its field, or the line's start where it has no
// field.
fn caret_place(line: &[u8], at: Option<FieldPlace>) -> usize
    ensures { result ≡ caret_place at line.now }
{
    at.map_or(0, |at| {
        field_place(line, at.field)
            .saturating_add(at.length)
            .min(line.len())
    })
}

// Adds the bytes of a line, each as `draw` draws it.
fn add_drawn<F: Fn(u8) -> u8>(out: &mut String, line: &[u8], draw: F) -> Result<(), AllocError>
    ghost drawn: { ℕ → ℕ }
    requires drawable { F.IsAlwaysCallable draw }
    requires draws { (byte r : ℕ) → F.post draw byte r → r ≡ drawn byte }
    requires ascii { (byte : ℕ) → drawn byte < 128 }
    ensures { OnOk result (string_bytes out.new ≡ string_bytes out.old ++ map drawn line.now) }
{
    for byte in line {
        out.push(char::from(draw(*byte)))?;
    }
    Ok(())
}

// A line as it is shown.
pub fn shown_line(heap: Global, line: &[u8]) -> Result<String, AllocError>
    ensures { IfOk result (λ s. string_bytes s ≡ map shown line.now) }
{
    let mut out = String::new(heap);
    add_drawn(&mut out, line, shown)?;
    Ok(out)
}

// A line as it is shown, and a caret under this place of it, or behind it where the place is past its end.
pub fn marked(heap: Global, line: &[u8], place: usize) -> Result<String, AllocError>
    ensures { IfOk result (λ s. string_bytes s ≡ marked place line.now) }
{
    let mut out = shown_line(heap, line)?;
    out.push_str("\n")?;
    add_drawn(&mut out, &line[..place.min(line.len())], under)?;
    out.push_str("^\n")?;
    Ok(out)
}

// The line of the text with this number, from 1, or its first 100 bytes, with a caret under the place of the fault:
// nothing for line 0.
fn mark(
    heap: Global,
    text: &[u8],
    number: usize,
    at: Option<FieldPlace>,
) -> Result<String, AllocError>
    ensures { IfOk result (λ s. string_bytes s ≡ mark number at text.now) }
{
    match number.checked_sub(1) {
        None => Ok(String::new(heap)),
        Some(index) => {
            let line = piece(text, b'\n', index);
            let front = &line[..line.len().min(100)];
            marked(heap, front, caret_place(front, at))
        }
    }
}

// The refusal of a text: its first line, and then the refused line with the caret.
pub fn refusal_text(heap: Global, text: &[u8], fault: &FileFault) -> Result<String, AllocError>
    ensures { IfOk result (λ s. string_bytes s ≡ refusal_text fault.now text.now) }
{
    let refusal = file_refusal(heap, fault)?;
    let mark = mark(heap, text, fault.line(), fault.field())?;
    format!(in heap; "{refusal}\n{mark}")
}
