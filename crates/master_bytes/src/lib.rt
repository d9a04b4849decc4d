// A master whose state is in lent bytes: the bus chosen for each of 64 nodes, then the kind of the exchange
// under way (0 none, 1 poll, 2 data block, 3 command), its node and its send count, and the layout's number.
#![tactic(auto)]

ghost use Rattle.std.specs.Prelude.{◌≡◌, cond, length, MatchResult};
ghost use Rattle.master_bytes.specs.States.{last_bytes, state_bytes, kind_of, loaded};
ghost use Rattle.master_bytes.specs.Calls as calls;
ghost use Rattle.master_bytes.specs.Claims as claims;
ghost use Rattle.master_bytes.specs.Examples.{Examples};

use copying::copy_in;
use format::Refusal;
use master::{Answer, Exchange, Kind, Master, Moved};

// The bytes of a state, and the number of their layout, which is the last of them.
#[derive(Clone, Copy, Debug, PartialEq, Eq)]
pub struct State;

impl State {
    pub const SIZE: usize = 68;

    pub const LAYOUT: u8 = 1;
}

// The master that the bytes are, or STATE: bytes that no master writes.
#[tactic(auto, unfolding(crate::specs::States::is_state, crate::specs::States::activity_written, crate::specs::States::master_in, format::specs::Tests::all_true))]
fn load(state: &[u8]) -> Result<Master, Refusal>
    ensures { result ≡ loaded state.now }
{
    // the buses, then the last four bytes and no more
    let Some((&chosen, &[kind, node, sends, State::LAYOUT])) = state.split_first_chunk::<64>()
    else {
        return Err(Refusal::State);
    };
    let activity = match [kind, node, sends] {
        [0, 0, 0] => None,
        [0, _, _] => return Err(Refusal::State),
        _ => Some(Exchange {
            kind: Kind::try_from(kind).or(Err(Refusal::State))?,
            node,
            sends,
        }),
    };
    Ok(Master { chosen, activity })
}

// The bytes behind those of the buses: the exchange's, and the layout's number.
fn last_bytes(activity: Option<Exchange>) -> [u8; 4]
    ensures { result ≡ last_bytes activity }
{
    match activity {
        None => [0, 0, 0, State::LAYOUT],
        Some(Exchange { kind, node, sends }) => [kind.into(), node, sends, State::LAYOUT],
    }
}

fn put(state: &mut [u8], master: Master)
    requires { length state.old ≡ 68 }
    ensures { state.new ≡ state_bytes master }
{
    copy_in(state, 0, &master.chosen);
    copy_in(state, 64, &last_bytes(master.activity));
}

// Answers as a call does, and writes the master that it hands back; of a refusal, whose master is in the bytes
// already, nothing is stored.
fn hand_back(state: &mut [u8], moved: Moved) -> Result<Answer, Refusal>
    requires { length state.old ≡ 68 }
    ensures value { result ≡ moved.answer }
    ensures state_after { MatchResult result (λ _. state.new ≡ state_bytes moved.master) (λ _. state.new ≡ state.old) }
{
    let answer = moved.answer?;
    put(state, moved.master);
    Ok(answer)
}

// Makes the bytes a new master's: bus A chosen for every node, no exchange. Answers 0, or refuses: STATE. The 0
// is what C gets, and `renew` states it.
#[tactic(auto, unfolding(crate::specs::Calls::renew))]
pub fn new(state: &mut [u8]) -> Result<usize, Refusal>
    ensures { calls.renew_after result state.new ≡ calls.renew state.old }
{
    if state.len() != State::SIZE {
        return Err(Refusal::State);
    }
    put(state, Master::new());
    Ok(0)
}

// The kind and the node to ask for. A number that is no kind's is asked for as a node that is none, and so is
// refused: after STATE, before BUSY.
#[tactic(auto, unfolding(format::specs::Tests::all_true))]
fn asked(kind: u8, node: u8) -> (Kind, u8)
    ensures kind { result.0 ≡ kind_of kind }
    ensures node { result.1 ≡ cond (calls.is_kind kind) node 64 }
{
    Kind::try_from(kind).map_or((Kind::Command, 64), |kind| (kind, node))
}

// Starts an exchange of a kind, 1 to 3, with a node, or refuses: STATE, FIELD, BUSY.
#[tactic(auto, unfolding(crate::specs::Calls::starting))]
pub fn start(state: &mut [u8], kind: u8, node: u8) -> Result<Answer, Refusal>
    ensures { calls.master_bytes_after result state.new ≡ calls.starting state.old kind node }
{
    let master = load(state)?;
    let (kind, node) = asked(kind, node);
    hand_back(state, master.start(kind, node))
}

// A reply has come in: done if it is the one awaited, else refused: STATE, FIELD, IDLE, NOTAWAITED.
#[tactic(auto, unfolding(crate::specs::Calls::replying))]
pub fn reply(state: &mut [u8], bus: u8, node: u8, function: u8) -> Result<Answer, Refusal>
    ensures { calls.master_bytes_after result state.new ≡ calls.replying state.old bus node function }
{
    let master = load(state)?;
    hand_back(state, master.reply(bus, node, function))
}

// No reply came in time: answers the bus to send on again, or gave up, or refuses: STATE, IDLE.
#[tactic(auto, unfolding(crate::specs::Calls::timing_out))]
pub fn timeout(state: &mut [u8]) -> Result<Answer, Refusal>
    ensures { calls.master_bytes_after result state.new ≡ calls.timing_out state.old }
{
    let master = load(state)?;
    hand_back(state, master.timeout())
}

// The claims of this crate. It does nothing: its contract ties each claim to its proof.
pub fn promised()
    ensures read_back { claims.ReadBack }
    ensures written_is_state { claims.WrittenIsState }
    ensures written_back { claims.WrittenBack }
    ensures no_masters { claims.NoMasters }
    ensures refused_keeps { claims.RefusedKeeps }
    ensures as_run { claims.AsRun }
    ensures late_reply { claims.LateReplyOnBytes }
    ensures examples { Examples }
{}
