ghost use Rattle.std.specs.Prelude.{◌≡◌, true};
ghost use Rattle.std.specs.List.{list_all};
ghost use Rattle.calls_text.specs.Unplayed.{unplayed};

use crate::line::Line;
use crate::mistake::Wrong;
use crate::request::Request;
use crate::unplayed::Unplayed;
use crate::words::is_passed_over;
use replay::call::Call;
use std::alloc::{AllocError, Global};

// What a text of calls asks for: the states to be held, and then the calls to be played. Just before each verdict stand the
// ends at its state, which it is read off. No call has an answer yet.
#[derive(Drop)]
pub struct Script {
    pub holds: Vec<usize>,
    pub calls: Vec<Call>,
    ghost none_played: { list_all unplayed calls.items ≡ true },
}

impl Script {
    ghost use Rattle.std.specs.Prelude.{[], ◌∷◌, IfOk, OnOk};
    ghost use Rattle.calls_text.specs.Requests.{asked, play, given};
    ghost use Rattle.calls_text.specs.Readings.{Adds, AskedAdded, LineAdded};

    // A script that asks for nothing.
    pub(crate) fn new(heap: Global) -> Script
        ensures holds { result.holds.items ≡ [] }
        ensures calls { result.calls.items ≡ [] }
    {
        Script {
            holds: Vec::new(heap),
            calls: Vec::new(heap),
        }
    }

    // Adds a call, and before a verdict the ends.
    fn add_call(&mut self, unplayed: Unplayed) -> Result<(), AllocError>
        ensures { OnOk result (Adds self.old self.new (play (given unplayed.call) ∷ [])) }
    {
        let Unplayed { call } = unplayed;
        if let Call::Verdict { state, .. } = call {
            self.calls.push(Call::Ends {
                state,
                answer: None,
            })?;
        }
        self.calls.push(call)?;
        Ok(())
    }

    // Adds what a line asks for, unless it holds a state after a call.
    fn add(&mut self, request: Request) -> Result<Result<(), Wrong>, AllocError>
        ensures { IfOk result (AskedAdded (asked request) self.old self.new) }
    {
        match request {
            Request::Hold(state) => {
                if !self.calls.is_empty() {
                    return Ok(Err(Wrong::Late));
                }
                self.holds.push(state)?;
            }
            Request::Play(unplayed) => self.add_call(unplayed)?,
        }
        Ok(Ok(()))
    }

    // Adds what a line asks for, or tells what is wrong with it.
    pub(crate) fn add_line(&mut self, line: &Line) -> Result<Result<(), Wrong>, AllocError>
        ensures { IfOk result (LineAdded line.now.states line.now.bytes.now self.old self.new) }
    {
        if is_passed_over(line.bytes) {
            return Ok(Ok(()));
        }
        match line.request()? {
            Ok(request) => self.add(request),
            Err(wrong) => Ok(Err(wrong)),
        }
    }
}
