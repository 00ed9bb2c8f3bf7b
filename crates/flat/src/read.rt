ghost use Rattle.std.specs.Prelude.{◌≡◌, ◌∷◌, [], ◌++◌, ◌≤◌, length};
ghost use Rattle.flat.specs.Drafts.{Emptied};
ghost use Rattle.flat.specs.Reads.{LinesRead, ReadInto};

use crate::flat::Flat;
use crate::loader::Loader;
use model::limits::TEXT_BYTES;
use text::fault::FileFault;
use text::word::Word;

// Reads the lines of a text that is short enough into empty arrays; `body` is the text without the LF that ends it.
fn read_lines(flat: &mut Flat, body: &[u8]) -> Result<(), FileFault>
    requires empty { Emptied flat.old }
    requires short { length (body.now ++ (10 ∷ [])) ≤ 65536 }
    ensures { LinesRead (body.now ++ (10 ∷ [])) flat.new result }
{
    let mut loader = Loader::new(flat);
    for (i, line) in body.split(|byte| *byte == b'\n').enumerate() {
        loader.read_step(line, i + 1)?;
    }
    if loader.last != Some(Word::End) {
        return Err(FileFault::NoEnd);
    }
    let denominator = loader.header.denominator;
    flat.close(denominator);
    Ok(())
}

impl Flat {
    // Reads the model that a text describes into the arrays. A refused text leaves them empty.
    pub fn read(&mut self, text: &[u8]) -> Result<(), FileFault>
        ensures { ReadInto text.now self.new result }
    {
        self.clear();
        if text.len() > TEXT_BYTES {
            return Err(FileFault::Long);
        }
        let Some((b'\n', body)) = text.split_last() else {
            return Err(FileFault::Unended);
        };
        let outcome = read_lines(self, body);
        if outcome.is_err() {
            self.clear();
        }
        outcome
    }
}
