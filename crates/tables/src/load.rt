ghost use Rattle.tables.specs.Loads.{Loaded};

use crate::tables::Tables;
use text::fault::FileFault;

impl Tables {
    // Loads the model that a text describes, or refuses the text and leaves the model as it was.
    pub fn load(&mut self, text: &[u8]) -> Result<(), FileFault>
        ensures { Loaded text.now self.old.kept self.new.kept result }
    {
        self.draft.read(text)?;
        std::mem::swap(&mut self.kept, &mut self.draft);
        self.size = text.len();
        Ok(())
    }
}
