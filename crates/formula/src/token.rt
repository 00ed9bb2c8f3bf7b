ghost use Rattle.formula.specs.Tokens.{SignReads, NumberReads, BoundReads, StepsReads};

use crate::cursor::Cursor;
use records::comparison::Comparison;
use text::number::leading_number;

// A number, and the place of its first digit.
#[derive(Clone, Copy)]
pub(crate) struct Number {
    pub value: u64,
    pub place: usize,
}

// A comparison and the bound that it compares with, and the place after them.
#[derive(Clone, Copy)]
pub(crate) struct Bound {
    pub comparison: Comparison,
    pub number: Number,
    pub end: usize,
}

// The steps of an until, if it has any, and the place after them.
#[derive(Clone, Copy)]
pub(crate) struct Steps {
    pub limit: Option<Number>,
    pub end: usize,
}

impl Cursor<'_> {
    // The comparison here, as far as it goes, and the place after it; or the place where it breaks off.
    fn read_comparison(self) -> Result<(Comparison, usize), usize>
        ensures { SignReads self.entry.text.now self.entry.at result }
    {
        let Cursor { text, at } = self;
        match &text[at..] {
            [b'<', b'=', ..] => Ok((Comparison::AtMost, at + 2)),
            [b'<', ..] => Ok((Comparison::Below, at + 1)),
            [b'>', b'=', ..] => Ok((Comparison::AtLeast, at + 2)),
            [b'>', ..] => Ok((Comparison::Above, at + 1)),
            _ => Err(at),
        }
    }

    // The number here, as far as it goes, and the place after it; or the place where it breaks off.
    fn read_number(self) -> Result<(Number, usize), usize>
        ensures { NumberReads self.entry.text.now self.entry.at result }
    {
        let Cursor { text, at } = self;
        let (value, length) = leading_number(&text[at..]).ok_or(at)?;
        Ok((Number { value, place: at }, at + length))
    }

    // The comparison and the bound here, or the place where they break off.
    pub(crate) fn read_bound(self) -> Result<Bound, usize>
        ensures { BoundReads self.entry.text.now self.entry.at result }
    {
        let (comparison, at) = self.read_comparison()?;
        let (number, end) = self.to(at).read_number()?;
        Ok(Bound {
            comparison,
            number,
            end,
        })
    }

    // The steps here, which may be none, or the place where they break off.
    pub(crate) fn read_steps(self) -> Result<Steps, usize>
        ensures { StepsReads self.entry.text.now self.entry.at result }
    {
        let at = self.at;
        if !self.stands(b'<') {
            return Ok(Steps {
                limit: None,
                end: at,
            });
        }
        let place = self.to(at + 1).expect(b'=')?;
        let (number, end) = self.to(place).read_number()?;
        Ok(Steps {
            limit: Some(number),
            end,
        })
    }
}
