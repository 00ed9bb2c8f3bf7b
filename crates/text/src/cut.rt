ghost use Rattle.std.specs.Prelude.{◌≡◌, length};
ghost use Rattle.text.specs.Cuts.{FirstPiece, pieces, piece, fields, field};

// How many bytes come before the first `sep`: all of them where there is none. This public function has no caller here; it stays
// for those who have one. Here and below, bytes and what parts them are two arguments, as `split` takes them.
pub fn piece_length(bytes: &[u8], sep: u8) -> usize
    ensures { FirstPiece bytes.now sep result }
{
    bytes
        .iter()
        .position(|byte| *byte == sep)
        .unwrap_or(bytes.len())
}

// One of the pieces that `sep` parts; empty where there is none.
pub fn piece(bytes: &[u8], sep: u8, index: usize) -> &[u8]
    ensures { result.now ≡ piece sep index bytes.now }
{
    bytes.split(|byte| *byte == sep).nth(index).unwrap_or(&[])
}

// How many pieces there are.
pub fn piece_count(bytes: &[u8], sep: u8) -> usize
    ensures { result ≡ length (pieces sep bytes.now) }
{
    bytes.split(|byte| *byte == sep).count()
}

// A field of a line, the word being field 0; empty where there is none.
pub fn field(line: &[u8], index: usize) -> &[u8]
    ensures { result.now ≡ field index (fields line.now) }
{
    piece(line, b'\t', index)
}

// How many fields a line has.
pub fn field_count(line: &[u8]) -> usize
    ensures { result ≡ length (fields line.now) }
{
    piece_count(line, b'\t')
}
