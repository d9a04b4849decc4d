// What a receiving turn does to the slots of a station.
ghost use Rattle.std.specs.Prelude.{◌<◌};

use format::Refusal;
use slot::Slot;
use stream::Answer;

// The slot that a turn concerns, by its number, and what it becomes.
#[derive(Clone, Copy, Debug, PartialEq, Eq)]
pub struct Change {
    pub at: usize,
    pub slot: Slot,
    ghost within: { at < 16 },
}

// One receiving turn over the bare slots: what changes, if a slot is concerned, and the answer.
#[derive(Clone, Copy, Debug, PartialEq, Eq)]
pub struct Turn {
    pub change: Option<Change>,
    pub answer: Result<Answer, Refusal>,
}
