ghost use Rattle.std.specs.Prelude.{Some};
ghost use Rattle.text.specs.Fields.{labels_text};

use model::labels::Labels;
use std::fmt;

// A set of labels as a text writes it: its letters one after another, or `-` for none.
// The tables put letters into a page of lent bytes, which is no writer, and so have this of their own.
#[derive(Clone, Copy)]
pub(crate) struct Letters<'a>(pub &'a Labels);

impl fmt::Display for Letters<'_> {
    ghost output = { λ l. Some (labels_text l.0.now.letters) };

    fn fmt<W: fmt::Write>(&self, f: &mut fmt::Formatter<W>) -> fmt::Result {
        let letters = self.0.letters;
        if !letters.contains(&true) {
            return write!(f, "-");
        }
        for (index, there) in letters.iter().enumerate() {
            if *there {
                let letter = char::from(b'a' + index as u8);
                write!(f, "{letter}")?;
            }
        }
        Ok(())
    }
}
