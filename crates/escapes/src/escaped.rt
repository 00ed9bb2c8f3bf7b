ghost use Rattle.std.specs.Prelude.{◌≡◌, ◌≤◌, ◌++◌, IfOk};
ghost use Rattle.escapes.specs.Escapes.{hex_digit, escape, piece};

use std::alloc::AllocError;

// The value of a hexadecimal digit; 0 for any other byte.
fn hex_digit(byte: u8) -> u8
    ensures value { result ≡ hex_digit byte }
    ensures small { result ≤ 15 }
{
    match byte {
        b'0'..=b'9' => byte - b'0',
        b'a'..=b'f' => byte - b'a' + 10,
        _ => 0,
    }
}

// Puts what stands behind a backslash at the end of `out`: n, t and r stand for LF, tab and CR, x for two digits. Here
// and where a piece, a repetition or a part is put, the text and `out` are two arguments: one `out` is lent on for many texts.
fn push_escape(part: &[u8], out: &mut Vec<u8>) -> Result<(), AllocError>
    ensures { IfOk result (λ _. out.new.items ≡ out.old.items ++ escape part.now) }
{
    let (byte, rest) = match part {
        [b'n', rest @ ..] => (b'\n', rest),
        [b't', rest @ ..] => (b'\t', rest),
        [b'r', rest @ ..] => (b'\r', rest),
        [b'x', high, low, rest @ ..] => (hex_digit(*high) * 16 + hex_digit(*low), rest),
        _ => return out.extend_from_slice(part),
    };
    out.push(byte)?;
    out.extend_from_slice(rest)
}

// Puts the bytes of a piece at the end of `out`.
pub(crate) fn push_piece(text: &str, out: &mut Vec<u8>) -> Result<(), AllocError>
    ensures { IfOk result (λ _. out.new.items ≡ out.old.items ++ piece text.now) }
{
    let mut parts = text.split('\\');
    if let Some(first) = parts.next() {
        out.extend_from_slice(first.as_bytes())?;
    }
    for part in parts {
        push_escape(part.as_bytes(), out)?;
    }
    Ok(())
}
