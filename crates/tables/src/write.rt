ghost use Rattle.std.specs.Prelude.{slice_index_or};
ghost use Rattle.text.specs.Contents.{no_state};
ghost use Rattle.text.specs.Texts.{text_of};
ghost use Rattle.flat.specs.Flats.{content};
ghost use Rattle.tables.specs.Pages.{Put, state_text};
ghost use Rattle.tables.specs.Writes.{Written};

use crate::page::Page;
use crate::tables::Tables;
use model::source::Source;
use text::fault::NoRoom;

impl Tables {
    // Writes the text of the model to the front of the buffer, and tells its length. A buffer that is too short for
    // it is left as it was.
    pub fn write(&self, out: &mut [u8]) -> Result<usize, NoRoom>
        ensures { Written (text_of (content self.now.kept)) out.old out.new result }
    {
        if self.size > out.len() {
            return Err(NoRoom);
        }
        self.put_text(&mut Page::new(out));
        Ok(self.size)
    }

    // The text of the model.
    fn put_text(&self, page: &mut Page<'_>)
        ensures { Put (text_of (content self.now.kept)) page.old page.new }
    {
        page.pair(b"mdp", self.states(), self.denominator());
        for state in 0..self.states() {
            self.put_state(page, state);
        }
        page.bytes(b"end\n");
    }

    // The lines of a state.
    fn put_state(&self, page: &mut Page<'_>, state: usize)
        ensures { Put (state_text (slice_index_or (content self.now.kept).states state no_state)) page.old page.new }
    {
        page.state_line(&self.labels(state));
        for choice in 0..self.choices(state) {
            page.choice(self.row(state, choice));
        }
    }
}
