ghost use Rattle.std.specs.Prelude.{◌≡◌, ◌≤◌, length};
ghost use Rattle.formula.specs.Tokens.{has, JustReads, WordReads};

// A place in a text: that of one of its bytes, or its end. Readers answer the place that they came to, which a
// fault tells as it is; a cursor goes on to it by `to`.
#[derive(Clone, Copy)]
pub(crate) struct Cursor<'a> {
    pub text: &'a [u8],
    pub at: usize,
    ghost inside: { at ≤ length text.now },
}

impl<'a> Cursor<'a> {
    // Does the byte stand here?
    pub(crate) fn stands(self, byte: u8) -> bool
        ensures { result ≡ has self.entry.text.now self.entry.at byte }
    {
        self.text.get(self.at).is_some_and(|here| *here == byte)
    }

    // The place after the byte, if it stands here; else this place.
    pub(crate) fn expect(self, byte: u8) -> Result<usize, usize>
        ensures { JustReads byte self.entry.text.now self.entry.at result }
    {
        if self.stands(byte) {
            Ok(self.at + 1)
        } else {
            Err(self.at)
        }
    }

    // The cursor at another place of its text.
    pub(crate) fn to(self, at: usize) -> Cursor<'a>
        requires { at ≤ length self.text.now }
        ensures same { result.text.now ≡ self.entry.text.now }
        ensures place { result.at ≡ at }
    {
        Cursor {
            text: self.text,
            at,
        }
    }

    // The place after the word, if it stands here; else the place where it breaks off.
    pub(crate) fn expect_all(self, word: &[u8]) -> Result<usize, usize>
        ensures { WordReads word.now self.entry.text.now self.entry.at result }
    {
        let mut at = self.at;
        for byte in word {
            at = self.to(at).expect(*byte)?;
        }
        Ok(at)
    }
}
