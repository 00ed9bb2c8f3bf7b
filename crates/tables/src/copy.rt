ghost use Rattle.std.specs.Prelude.{◌≡◌};
ghost use Rattle.tables.specs.declared.copy.CopyFault.TheVariants.{Load, Write};
ghost use Rattle.tables.specs.Copies.{Copied, copy_number};

use crate::tables::Tables;
use text::fault::{FileFault, NoRoom};

// Why a text was not copied: it is refused, or there is no room to write it.
#[derive(Clone, Copy, PartialEq, Eq, Debug)]
pub enum CopyFault {
    Load(FileFault),
    Write(NoRoom),
}

// A refused text is a fault of copying.
impl From<FileFault> for CopyFault {
    ghost from_gives = { λ e r. r ≡ Load e };

    fn from(fault: FileFault) -> CopyFault {
        CopyFault::Load(fault)
    }
}

// Want of room is a fault of copying.
impl From<NoRoom> for CopyFault {
    ghost from_gives = { λ e r. r ≡ Write e };

    fn from(fault: NoRoom) -> CopyFault {
        CopyFault::Write(fault)
    }
}

impl CopyFault {
    // The number of the refusal, by a match: each fault has that of its kind.
    pub fn number(&self) -> u8
        ensures { result ≡ copy_number self.now }
    {
        match self {
            CopyFault::Load(fault) => fault.number(),
            CopyFault::Write(fault) => fault.number(),
        }
    }
}

impl Tables {
    // Loads a text and writes the model that it describes: what is written is the text, byte for byte.
    pub fn load_and_write(&mut self, text: &[u8], out: &mut [u8]) -> Result<usize, CopyFault>
        ensures { Copied text.now self.old.kept self.new.kept out.old out.new result }
    {
        self.load(text)?;
        Ok(self.write(out)?)
    }
}
