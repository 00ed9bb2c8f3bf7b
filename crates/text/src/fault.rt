ghost use Rattle.std.specs.Prelude.{◌≡◌};
ghost use Rattle.text.specs.Faults.{field_fault_number, line_fault_number, file_fault_number, no_room_number, fault_line, place, fault_field};
ghost use Rattle.text.specs.declared.fault.FileFault.TheVariants.{Line};
ghost use Rattle.text.specs.declared.fault.LineFault.TheVariants.{Field};

// Where a field of a line is at fault: the number of the field, the word being field 0, and the length of its longest
// lawful beginning.
#[derive(Clone, Copy, PartialEq, Eq, Debug)]
pub struct FieldPlace {
    pub field: usize,
    pub length: usize,
}

// A fault of one field, which is to be a number or a set of labels.
#[derive(Clone, Copy, PartialEq, Eq, Debug)]
pub enum FieldFault {
    Number(FieldPlace),
    Labels(FieldPlace),
}

// A fault of one line.
#[derive(Clone, Copy, PartialEq, Eq, Debug)]
pub enum LineFault {
    Word,
    Fields,
    Field(FieldFault),
    Range,
    Order,
    Sum,
    States,
    Choices,
    Branches,
}

// A line's fault with the number of its line, from 1.
#[derive(Clone, Copy, PartialEq, Eq, Debug)]
pub struct Numbered {
    pub line: usize,
    pub fault: LineFault,
}

// A fault of the whole text.
#[derive(Clone, Copy, PartialEq, Eq, Debug)]
pub enum FileFault {
    Long,
    Unended,
    Line(Numbered),
    Missing,
    NoEnd,
}

// The fault of a buffer that is too short for what is to be written into it.
#[derive(Clone, Copy, PartialEq, Eq, Debug)]
pub struct NoRoom;

// A field's fault is one of its line.
impl From<FieldFault> for LineFault {
    ghost from_gives = { λ e r. r ≡ Field e };

    fn from(e: FieldFault) -> LineFault {
        LineFault::Field(e)
    }
}

// A line's fault is one of the whole text.
impl From<Numbered> for FileFault {
    ghost from_gives = { λ e r. r ≡ Line e };

    fn from(e: Numbered) -> FileFault {
        FileFault::Line(e)
    }
}

impl FieldFault {
    // The number of the fault, by a match: each fault carries its place, so the variants cannot be numbered.
    pub fn number(&self) -> u8
        ensures { result ≡ field_fault_number self.now }
    {
        match self {
            FieldFault::Number(_) => 5,
            FieldFault::Labels(_) => 7,
        }
    }

    // Where the field is at fault.
    fn place(&self) -> FieldPlace
        ensures { result ≡ place self.now }
    {
        let (FieldFault::Number(place) | FieldFault::Labels(place)) = self;
        *place
    }
}

impl LineFault {
    // The number of the fault, by a match: a fault of a field has that of its kind, so the variants cannot be numbered.
    pub fn number(&self) -> u8
        ensures { result ≡ line_fault_number self.now }
    {
        match self {
            LineFault::Word => 3,
            LineFault::Fields => 4,
            LineFault::Field(fault) => fault.number(),
            LineFault::Range => 6,
            LineFault::Order => 8,
            LineFault::Sum => 9,
            LineFault::States => 10,
            LineFault::Choices => 11,
            LineFault::Branches => 12,
        }
    }
}

impl FileFault {
    // The number of the fault, by a match: a line's fault has that of its kind.
    pub fn number(&self) -> u8
        ensures { result ≡ file_fault_number self.now }
    {
        match self {
            FileFault::Long => 1,
            FileFault::Unended => 2,
            FileFault::Line(at) => at.fault.number(),
            FileFault::Missing => 13,
            FileFault::NoEnd => 14,
        }
    }

    // The line of the fault, from 1; 0 for a fault of the whole text, as the table of refusals has it.
    pub fn line(&self) -> usize
        ensures { result ≡ fault_line self.now }
    {
        match self {
            FileFault::Line(at) => at.line,
            FileFault::Long | FileFault::Unended | FileFault::Missing | FileFault::NoEnd => 0,
        }
    }

    // Of a fault of a field, where the field is at fault.
    pub fn field(&self) -> Option<FieldPlace>
        ensures { result ≡ fault_field self.now }
    {
        match self {
            FileFault::Line(
                Numbered {
                    fault: LineFault::Field(fault),
                    ..
                },
            ) => Some(fault.place()),
            _ => None,
        }
    }
}

impl NoRoom {
    // The number of the fault.
    pub fn number(&self) -> u8
        ensures { result ≡ no_room_number self.now }
    {
        15
    }
}
