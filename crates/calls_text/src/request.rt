ghost use Rattle.std.specs.Prelude.{◌≡◌, IfOk};
ghost use Rattle.std.specs.Option.{option_map};
ghost use Rattle.calls_text.specs.Requests.{asked, asked_of, start_of, verdict_of, judge_of, asked_by, line_read};

use crate::kind::LineKind;
use crate::line::Line;
use crate::marks::marks_of;
use crate::mistake::Wrong;
use crate::signs::{aim_of, comparison_of};
use crate::sizes::Sizes;
use crate::unplayed::Unplayed;
use crate::words::{number_at, word, word_count};
use records::record::BLANK;
use replay::call::Call;
use std::alloc::AllocError;

// What a line asks for.
#[derive(Drop)]
pub(crate) enum Request {
    Hold(usize),
    Play(Unplayed),
}

impl Line<'_> {
    // The start that the line asks for.
    fn start(&self) -> Result<Option<Request>, AllocError>
        ensures { IfOk result (λ r. option_map asked r ≡ start_of self.now.bytes.now) }
    {
        let aim = aim_of(word(self.bytes, 1));
        let left = marks_of(self.heap, word(self.bytes, 2))?;
        let right = marks_of(self.heap, word(self.bytes, 3))?;
        match (aim, left, right) {
            (Some(aim), Some(left), Some(right)) => {
                let call = Call::Start {
                    left,
                    right,
                    aim,
                    answer: None,
                };
                Ok(Some(Request::Play(Unplayed { call })))
            }
            _ => Ok(None),
        }
    }

    // The verdict that the line asks for.
    fn verdict(&self) -> Option<Request>
        ensures { option_map asked result ≡ verdict_of self.now.bytes.now }
    {
        let call = Call::Verdict {
            state: number_at(self.bytes, 1)? as usize,
            comparison: comparison_of(word(self.bytes, 2))?,
            bound: number_at(self.bytes, 3)?,
            answer: None,
        };
        Some(Request::Play(Unplayed { call }))
    }

    // The judge that the line asks for, with buffers of these sizes.
    fn judge(&self, sizes: Sizes) -> Result<Request, AllocError>
        ensures { IfOk result (λ q. asked q ≡ judge_of self.now.bytes.now sizes) }
    {
        let call = Call::Judge {
            text: Vec::from_slice(self.heap, word(self.bytes, 1))?,
            records: vec![in self.heap; BLANK; sizes.records]?,
            scratch: vec![in self.heap; 0u8; sizes.scratch]?,
            out: vec![in self.heap; 0u8; sizes.out]?,
            answer: None,
        };
        Ok(Request::Play(Unplayed { call }))
    }

    // What the line asks for as one of this kind, if it has the form of its kind.
    fn request_by(&self, kind: LineKind) -> Result<Option<Request>, AllocError>
        ensures { IfOk result (λ r. option_map asked r ≡ asked_by kind self.now.states self.now.bytes.now) }
    {
        let line = self.bytes;
        match (kind, word_count(line)) {
            (LineKind::Hold, 2) => {
                Ok(number_at(line, 1).map(|state| Request::Hold(state as usize)))
            }
            (LineKind::Start, 4) => self.start(),
            (LineKind::Advance, 2) => Ok(number_at(line, 1).map(|count| {
                let call = Call::Advance {
                    count,
                    answer: None,
                };
                Request::Play(Unplayed { call })
            })),
            (LineKind::Ends, 2) => Ok(number_at(line, 1).map(|state| {
                let call = Call::Ends {
                    state: state as usize,
                    answer: None,
                };
                Request::Play(Unplayed { call })
            })),
            (LineKind::Verdict, 4) => Ok(self.verdict()),
            (LineKind::Judge, 2) => Ok(Some(self.judge(Sizes::usual(self.states))?)),
            (LineKind::Judge, 5) => match Sizes::of_line(line) {
                Some(sizes) => Ok(Some(self.judge(sizes)?)),
                None => Ok(None),
            },
            _ => Ok(None),
        }
    }

    // What the line asks for, or what is wrong with it.
    pub(crate) fn request(&self) -> Result<Result<Request, Wrong>, AllocError>
        ensures { IfOk result (λ r. asked_of r ≡ line_read self.now.states self.now.bytes.now) }
    {
        match LineKind::try_from(word(self.bytes, 0)) {
            Ok(kind) => Ok(self.request_by(kind)?.ok_or(Wrong::Form(kind))),
            Err(wrong) => Ok(Err(wrong)),
        }
    }
}
