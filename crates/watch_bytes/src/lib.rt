// A watch whose state is in lent bytes: the last heard time of bus A and of bus B, each a number of 32 bits,
// low byte first, and the layout's number.
#![tactic(auto)]

ghost use Rattle.std.specs.Prelude.{◌≡◌, true, false, IfOk, IfErr, length};
ghost use Rattle.watch_bytes.specs.States as states;
ghost use Rattle.watch_bytes.specs.Claims as claims;

use copying::copy_in;
use format::Refusal;
use watch::Watch;
use words::{word_bytes, word_of};

// The bytes of a state, and the number of their layout, which is the last of them.
#[derive(Clone, Copy, Debug, PartialEq, Eq)]
pub struct State;

impl State {
    pub const SIZE: usize = 9;

    pub const LAYOUT: u8 = 1;
}

fn put(state: &mut [u8], watch: Watch)
    requires { length state.old ≡ 9 }
    ensures { state.new ≡ states.state_bytes watch }
{
    let [b0, b1, b2, b3] = word_bytes(watch.b);
    copy_in(state, 0, &word_bytes(watch.a));
    copy_in(state, 4, &[b0, b1, b2, b3, State::LAYOUT]);
}

// The watch in the bytes, or STATE where they are no watch's.
#[tactic(auto, unfolding(crate::specs::States::watch_in, crate::specs::States::is_state, words::specs::Words::word_at, format::specs::Tests::all_true, format::specs::Tests::all_after))]
fn load(state: &[u8]) -> Result<Watch, Refusal>
    ensures watch { IfOk result (λ watch. (states.is_state state.now ≡ true) × (watch ≡ states.watch_in state.now)) }
    ensures none { IfErr result (λ name. (states.is_state state.now ≡ false) × (name ≡ Refusal.State)) }
{
    let [a0, a1, a2, a3, b0, b1, b2, b3, State::LAYOUT] = *state else {
        return Err(Refusal::State);
    };
    Ok(Watch {
        a: word_of(a0, a1, a2, a3),
        b: word_of(b0, b1, b2, b3),
    })
}

// Makes the bytes those of a watch that begins at the time. Answers 0, or refuses: STATE.
#[tactic(auto, unfolding(crate::specs::States::renew))]
pub fn new(state: &mut [u8], time: u32) -> Result<usize, Refusal>
    ensures { states.watch_bytes_after result state.new ≡ states.renew state.old time }
{
    if state.len() != State::SIZE {
        return Err(Refusal::State);
    }
    put(state, Watch::new(time));
    Ok(0)
}

// A bus is heard at the time: 0 is A, 1 is B. Answers the bus, or refuses and stores nothing: STATE, FIELD.
pub fn heard(state: &mut [u8], bus: u8, time: u32) -> Result<usize, Refusal>
    ensures { states.watch_bytes_after result state.new ≡ states.hearing state.old bus time }
{
    let heard = load(state)?.heard(bus, time);
    let bus = heard.answer?;
    put(state, heard.watch);
    Ok(bus)
}

// Which buses are to be reset at the time: 0 none, 1 A, 2 B, 3 both. Refuses: STATE. With none nothing is stored.
pub fn check(state: &mut [u8], time: u32) -> Result<usize, Refusal>
    ensures { states.watch_bytes_after result state.new ≡ states.checking state.old time }
{
    let checked = load(state)?.check(time);
    let resets = checked.resets();
    if resets != 0 {
        put(state, checked.watch);
    }
    Ok(resets)
}

// The claims of this crate. It does nothing: its contract ties each claim to its proof.
pub fn promised()
    ensures read_back { claims.ReadBack }
    ensures written_is_state { claims.WrittenIsState }
    ensures written_back { claims.WrittenBack }
    ensures no_watches { claims.NoWatches }
    ensures refused_keeps { claims.RefusedKeeps }
    ensures as_run { claims.AsRun }
    ensures last_times { claims.LastTimesOnBytes }
    ensures examples { claims.Examples }
{}
