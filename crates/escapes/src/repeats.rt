ghost use Rattle.std.specs.Prelude.{◌≡◌, ◌++◌, IfOk};
ghost use Rattle.escapes.specs.Escapes.{count, repetition, part};

use crate::escaped::push_piece;
use std::alloc::AllocError;

// How often a piece is repeated; 0 where the text is no number that fits.
fn count(text: &str) -> u32
    ensures { result ≡ count text.now }
{
    text.parse::<u32>().unwrap_or(0)
}

// Puts a repetition at the end of `out`, which is a count, a colon and the piece.
fn push_repetition(text: &str, out: &mut Vec<u8>) -> Result<(), AllocError>
    ensures { IfOk result (λ _. out.new.items ≡ out.old.items ++ repetition text.now) }
{
    if let Some((digits, piece)) = text.split_once(':') {
        for _ in 0..count(digits) {
            push_piece(piece, out)?;
        }
    }
    Ok(())
}

// Puts a part of the text at the end of `out`: a repetition and a piece that a brace parts, or a piece alone.
pub(crate) fn push_part(text: &str, out: &mut Vec<u8>) -> Result<(), AllocError>
    ensures { IfOk result (λ _. out.new.items ≡ out.old.items ++ part text.now) }
{
    match text.split_once('}') {
        Some((repetition, piece)) => {
            push_repetition(repetition, out)?;
            push_piece(piece, out)
        }
        None => push_piece(text, out),
    }
}
