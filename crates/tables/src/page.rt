// A page: a lent buffer that a text is put into, piece after piece.
ghost use Rattle.std.specs.Prelude.{◌≡◌, [], ◌∷◌, decimal};
ghost use Rattle.text.specs.Fields.{letters_from, labels_text};
ghost use Rattle.text.specs.Texts.{state_line};
ghost use Rattle.tables.specs.Pages.{Put, line_text, choice_text};

use itoa::Integer;
use model::branch::Branch;
use model::labels::Labels;

// A lent buffer that is filled from its front, and the place of the next byte. What no longer fits is left out. It
// implements no writer of the library: `write!` answers a result whose error a proof cannot exclude, room or not.
#[derive(Drop)]
pub(crate) struct Page<'a> {
    out: &'a mut [u8],
    at: usize,
}

impl<'a> Page<'a> {
    // An empty page over the whole buffer.
    pub(crate) fn new(out: &'a mut [u8]) -> Page<'a>
        ensures same { result.out.ghost_name ≡ out.entry.ghost_name }
        ensures blank { result.out.now ≡ out.old }
        ensures empty { result.at ≡ 0 }
    {
        Page { out, at: 0 }
    }
}

impl Page<'_> {
    // One byte. A write through `get_mut` did not prove: a test of the place and a write by index stand for it.
    fn byte(&mut self, byte: u8)
        ensures { Put (byte ∷ []) self.old self.new }
    {
        if self.at < self.out.len() {
            self.out[self.at] = byte;
            self.at += 1;
        }
    }

    // Bytes that are given, one after another, since those that do not fit are left out.
    pub(crate) fn bytes(&mut self, bytes: &[u8])
        ensures { Put bytes.now self.old self.new }
    {
        for byte in bytes {
            self.byte(*byte);
        }
    }

    // A tab and a number in decimal.
    fn field<N: Integer>(&mut self, number: N)
        ensures { Put (9 ∷ N.text number) self.old self.new }
    {
        self.byte(b'\t');
        let mut digits = itoa::Buffer::new();
        self.bytes(digits.format(number).as_bytes());
    }

    // A line of a word and two numbers.
    pub(crate) fn pair(&mut self, word: &[u8], first: usize, second: u32)
        ensures { Put (line_text (word.now ∷ decimal first ∷ decimal second ∷ [])) self.old self.new }
    {
        self.bytes(word);
        self.field(first);
        self.field(second);
        self.byte(b'\n');
    }

    // The letters whose flags are set.
    fn letters(&mut self, labels: &Labels)
        ensures { Put (letters_from 97 labels.now.letters) self.old self.new }
    {
        for (i, flag) in labels.letters.iter().enumerate() {
            if *flag {
                self.byte(b'a' + i as u8);
            }
        }
    }

    // A set of labels: its letters, or a dash for none.
    fn labels(&mut self, labels: &Labels)
        ensures { Put (labels_text labels.now.letters) self.old self.new }
    {
        if labels.letters.contains(&true) {
            self.letters(labels);
        } else {
            self.byte(b'-');
        }
    }

    // The line of a state.
    pub(crate) fn state_line(&mut self, labels: &Labels)
        ensures { Put (line_text (state_line labels.now.letters)) self.old self.new }
    {
        self.bytes(b"s\t");
        self.labels(labels);
        self.byte(b'\n');
    }

    // The lines of a choice: its own, then one for each branch.
    pub(crate) fn choice(&mut self, row: &[Branch])
        ensures { Put (choice_text row.now) self.old self.new }
    {
        self.bytes(b"c\n");
        for branch in row {
            self.pair(b"b", branch.target, branch.weight);
        }
    }
}
