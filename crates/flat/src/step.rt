ghost use Rattle.std.specs.Prelude.{◌≡◌, List, Ok, Err};
ghost use Rattle.text.specs.Cuts.{Line, fields};
ghost use Rattle.flat.specs.Drafts.{Emptied};
ghost use Rattle.flat.specs.Readings.{Follows, Admits, word_of_record, all_there, Put, Begun, StepRead};

use crate::flat::Flat;
use crate::loader::{Header, Loader, Record};
use text::fault::{FileFault, Numbered};
use text::word::Word;

impl Record {
    // The word of a line that says this.
    fn word(self) -> Word
        ensures { result ≡ word_of_record self }
    {
        match self {
            Record::Header(_) => Word::Mdp,
            Record::State(_) => Word::State,
            Record::Choice => Word::Choice,
            Record::Branch(_) => Word::Branch,
            Record::End => Word::End,
        }
    }
}

impl<'a> Loader<'a> {
    // A loader that has read nothing, of empty arrays.
    pub(crate) fn new(flat: &'a mut Flat) -> Loader<'a>
        requires { Emptied flat.old }
        ensures same_reference { result.flat.ghost_name ≡ flat.entry.ghost_name }
        ensures begun { Begun result }
    {
        Loader {
            flat,
            last: None,
            header: Header {
                states: 0,
                denominator: 0,
            },
        }
    }

    // Puts what a line says into the arrays: the first choice of a state is the next, and so is the first branch of a
    // choice.
    fn put(&mut self, record: Record)
        requires { Admits self.old «record» }
        ensures same_reference { self.new.flat.ghost_name ≡ self.old.flat.ghost_name }
        ensures put { Put «record» self.old self.new }
    {
        // The arrays need to be within the limits again only when this loan of them ends.
        let flat = &mut *self.flat;
        match record {
            Record::Header(header) => self.header = header,
            Record::State(labels) => {
                let choices = flat.offsets.len();
                flat.starts.push_reserved(choices);
                flat.labels.push_reserved(labels);
            }
            Record::Choice => {
                let branches = flat.branches.len();
                flat.offsets.push_reserved(branches);
            }
            Record::Branch(branch) => flat.branches.push_reserved(branch),
            Record::End => {}
        }
        self.last = Some(record.word());
    }

    // Are all states there, if this is the end (13)?
    fn states_there(&self, record: Record) -> bool
        ensures { result ≡ all_there self.now «record» }
    {
        match record {
            Record::End => self.flat.labels.len() == self.header.states,
            _ => true,
        }
    }

    // Reads line number `number` into the arrays, or finds the fault of the text.
    pub(crate) fn read_step(&mut self, line: &[u8], number: usize) -> Result<(), FileFault>
        ensures same_reference { self.new.flat.ghost_name ≡ self.old.flat.ghost_name }
        ensures read { (before : List Line) → Follows self.old before
            → StepRead before number (fields line.now) self.old self.new result }
    {
        let record = self.read_line(line).map_err(|fault| Numbered {
            line: number,
            fault,
        })?;
        if !self.states_there(record) {
            return Err(FileFault::Missing);
        }
        self.put(record);
        Ok(())
    }
}
