// The silence watch: for each bus the time at which it was last heard, in milliseconds of a
// free-running 32-bit count.
#![tactic(auto)]

ghost use Rattle.std.specs.Prelude.{◌≡◌};
ghost use Rattle.watch.specs.Watching.{new_watch, silent, hearing, checking, resets, watch_after};
ghost use Rattle.watch.specs.Claims as claims;

use format::Refusal;

// The last heard time of bus A and of bus B.
#[derive(Clone, Copy, Debug, PartialEq, Eq)]
pub struct Watch {
    pub a: u32,
    pub b: u32,
}

// What hearing hands back: the next watch, and the bus heard or a refusal.
#[derive(Clone, Copy, Debug, PartialEq, Eq)]
pub struct Heard {
    pub watch: Watch,
    pub answer: Result<usize, Refusal>,
}

// What a check hands back: the next watch, and whether bus A and bus B are to be reset. The watch is
// there whatever they say: they are an answer by themselves, as in NoResetKeeps and LastTimes.
#[derive(Clone, Copy, Debug, PartialEq, Eq)]
pub struct Checked {
    pub watch: Watch,
    pub a: bool,
    pub b: bool,
}

impl Checked {
    // Which buses are to be reset, as the number that programs in C get: 0 none, 1 A, 2 B, 3 both.
    pub fn resets(self) -> usize
        ensures { result ≡ resets self.a self.b }
    {
        usize::from(self.a) + 2 * usize::from(self.b)
    }
}

// Whether a bus last heard at `last` is to be reset at `time`. The count runs over, so the difference
// wraps.
#[tactic(auto, unfolding(crate::specs::Watching::since, crate::specs::Watching::silent))]
fn is_silent(last: u32, time: u32) -> bool
    ensures { result ≡ silent last time }
{
    time.wrapping_sub(last) >= Watch::SILENCE
}

impl Watch {
    // A bus not heard for so many milliseconds is to be reset.
    pub const SILENCE: u32 = 16000;

    // A watch that begins now.
    pub fn new(time: u32) -> Watch
        ensures { result ≡ new_watch time }
    {
        Watch { a: time, b: time }
    }

    // A bus is heard now: 0 is A, 1 is B. Answers the bus, or refuses: FIELD.
    #[tactic(auto, unfolding(crate::specs::Watching::hearing, format::specs::Refusals::guarded))]
    pub fn heard(self, bus: u8, time: u32) -> Heard
        ensures { watch_after result ≡ hearing self bus time }
    {
        match bus {
            0 => Heard {
                watch: Watch { a: time, ..self },
                answer: Ok(0),
            },
            1 => Heard {
                watch: Watch { b: time, ..self },
                answer: Ok(1),
            },
            _ => Heard {
                watch: self,
                answer: Err(Refusal::Field),
            },
        }
    }

    // Which buses are to be reset now. The last time of such a bus becomes now.
    #[tactic(auto, unfolding(crate::specs::Watching::checking))]
    pub fn check(self, time: u32) -> Checked
        ensures { result ≡ checking self time }
    {
        let a = is_silent(self.a, time);
        let b = is_silent(self.b, time);
        Checked {
            watch: Watch {
                a: if a { time } else { self.a },
                b: if b { time } else { self.b },
            },
            a,
            b,
        }
    }
}

// The claims of this crate. It does nothing: its contract ties each claim to its proof.
pub fn promised()
    ensures refused_keeps { claims.RefusedKeeps }
    ensures no_reset_keeps { claims.NoResetKeeps }
    ensures last_times { claims.LastTimes }
    ensures since_elapsed { claims.SinceElapsed }
    ensures clock_behind { claims.ClockBehind }
    ensures examples { claims.Examples }
{}
