// A master: one chosen bus for each node, and at most one exchange, which is sent again, on the same
// or on the other bus, until it is answered or its sends are used up.
#![tactic(auto)]

ghost use Rattle.std.specs.Prelude.{◌≡◌, ◌≤◌};
ghost use Rattle.format.specs.Numbers.{Reads};
ghost use Rattle.master.specs.Masters.{new_master, kind_number, plan_of, function_sent, chosen_bus, other, chosen_sound, exchange_sound, sound};
ghost use Rattle.master.specs.Exchanges as exchanges;
ghost use Rattle.master.specs.Exchanges.{told_of, step_of, step_given};
ghost use Rattle.master.specs.Claims as claims;
ghost use Rattle.master.specs.Examples.{Examples};

use format::{NoSuch, Refusal};

// What is sent to a node. Where a kind is handed over as a byte, it is this number.
#[derive(Clone, Copy, Debug, PartialEq, Eq)]
pub enum Kind {
    Poll = 1,
    DataBlock = 2,
    Command = 3,
}

impl From<Kind> for u8 {
    ghost from_gives = { λ kind number. number ≡ kind_number kind };

    fn from(kind: Kind) -> u8 {
        kind as u8
    }
}

impl TryFrom<u8> for Kind {
    type Error = NoSuch;

    ghost try_from_gives = { Reads kind_number };

    fn try_from(number: u8) -> Result<Kind, NoSuch> {
        match number {
            1 => Ok(Kind::Poll),
            2 => Ok(Kind::DataBlock),
            3 => Ok(Kind::Command),
            _ => Err(NoSuch(number)),
        }
    }
}

impl Kind {
    // The function that an exchange of this kind is sent with.
    pub fn function(self) -> u8
        ensures { result ≡ function_sent self }
    {
        match self {
            Kind::Poll => 1,
            Kind::DataBlock => 3,
            Kind::Command => 3,
        }
    }

    fn plan(self) -> Plan
        ensures { result ≡ plan_of self }
    {
        match self {
            Kind::Poll => Plan {
                first: 1,
                total: 1,
                awaited: 2,
            },
            Kind::DataBlock => Plan {
                first: 2,
                total: 2,
                awaited: 4,
            },
            Kind::Command => Plan {
                first: 2,
                total: 3,
                awaited: 4,
            },
        }
    }
}

// How an exchange of a kind goes: how often it is sent on the bus that is chosen at its start, how
// often in all, and the function that answers it.
#[derive(Clone, Copy, Debug, PartialEq, Eq)]
pub struct Plan {
    pub first: u8,
    pub total: u8,
    pub awaited: u8,
}

// An exchange with a node, and how many times it was sent so far.
#[derive(Clone, Copy, Debug, PartialEq, Eq)]
pub struct Exchange {
    pub kind: Kind,
    pub node: u8,
    pub sends: u8,
}

impl Exchange {
    // A node 0 to 63, and a send count from 1 to the kind's total.
    #[tactic(auto, unfolding(crate::specs::Masters::exchange_sound, format::specs::Tests::all_true))]
    fn is_sound(self) -> bool
        ensures { result ≡ exchange_sound (Some self) }
    {
        self.node <= 63 && self.sends >= 1 && self.sends <= self.kind.plan().total
    }
}

// The bus chosen for each node, 0 for A and 1 for B, and the exchange under way, if any. A bus, a node and a
// function are plain numbers: any may be handed in, and STATE and FIELD refuse those out of range.
#[derive(Clone, Copy, Debug, PartialEq, Eq)]
pub struct Master {
    pub chosen: [u8; 64],
    pub activity: Option<Exchange>,
}

// What a call answers that is not refused: send on this bus, done or gave up.
#[derive(Clone, Copy, Debug, PartialEq, Eq)]
pub enum Answer {
    Send(u8),
    Done,
    GaveUp,
}

// What a call hands back: the next master, and the answer. A refusal hands one back too (claim RefusedKeeps), so
// the master stands beside the Result.
#[derive(Clone, Copy, Debug, PartialEq, Eq)]
pub struct Moved {
    pub master: Master,
    pub answer: Result<Answer, Refusal>,
}

// An exchange with a node 0 to 63, and the buses chosen.
#[derive(Clone, Copy)]
struct UnderWay {
    chosen: [u8; 64],
    exchange: Exchange,
    ghost in_range: { exchange.node ≤ 63 },
}

impl UnderWay {
    // The bus chosen for the node.
    #[tactic(auto, unfolding(crate::specs::Masters::chosen_bus))]
    fn bus(self) -> u8
        ensures { result ≡ chosen_bus self.chosen self.exchange.node }
    {
        self.chosen[self.exchange.node as usize]
    }

    // The exchange goes out on the bus chosen for its node.
    fn send(self) -> (Answer, Master)
        ensures { step_of result ≡ exchanges.sent self.chosen self.exchange }
    {
        let UnderWay { chosen, exchange } = self;
        let activity = Some(exchange);
        (Answer::Send(self.bus()), Master { chosen, activity })
    }

    // The chosen buses after a timeout: with the sends on the first bus used up, the node's is the other.
    #[tactic(auto, unfolding(crate::specs::Exchanges::chosen_after, crate::specs::Masters::switched, crate::specs::Masters::chosen_bus))]
    fn chosen_after(self) -> [u8; 64]
        ensures { result ≡ exchanges.chosen_after self.chosen self.exchange }
    {
        let mut chosen = self.chosen;
        if self.exchange.sends == self.exchange.kind.plan().first {
            chosen[self.exchange.node as usize] = other_bus(self.bus());
        }
        chosen
    }

    // A timeout: sent again, or given up.
    #[tactic(auto, unfolding(crate::specs::Exchanges::expired))]
    fn expire(self) -> (Answer, Master)
        ensures { step_of result ≡ exchanges.expired self.chosen (Some self.exchange) }
    {
        let chosen = self.chosen_after();
        if self.exchange.sends >= self.exchange.kind.plan().total {
            return end(chosen, Answer::GaveUp);
        }
        let exchange = Exchange {
            sends: self.exchange.sends + 1,
            ..self.exchange
        };
        UnderWay { chosen, exchange }.send()
    }

    // Whether a reply is the one awaited: from the node, with the function, on the bus of the latest
    // send, which is the bus chosen for the node.
    #[tactic(auto, unfolding(crate::specs::Exchanges::counts, format::specs::Tests::all_true))]
    fn counts(self, bus: u8, node: u8, function: u8) -> bool
        ensures { result ≡ exchanges.counts self.chosen bus node function (Some self.exchange) }
    {
        node == self.exchange.node
            && function == self.exchange.kind.plan().awaited
            && bus == self.bus()
    }
}

// Each is 0 or 1.
fn chosen_sound(chosen: &[u8; 64]) -> bool
    ensures { result ≡ chosen_sound chosen.now }
{
    chosen.iter().all(|&bus| bus <= 1)
}

fn other_bus(bus: u8) -> u8
    ensures { result ≡ other bus }
{
    if bus == 0 { 1 } else { 0 }
}

// The exchange ends.
fn end(chosen: [u8; 64], answer: Answer) -> (Answer, Master)
    ensures { step_of result ≡ exchanges.exchange_ended (told_of answer) chosen }
{
    let activity = None;
    (answer, Master { chosen, activity })
}

impl Master {
    // A master with bus A chosen for every node, and no exchange.
    pub fn new() -> Master
        ensures { result ≡ new_master }
    {
        Master {
            chosen: [0; 64],
            activity: None,
        }
    }

    // Chosen buses 0 or 1, and a sound exchange or none.
    #[tactic(auto, unfolding(crate::specs::Masters::sound, crate::specs::Masters::exchange_sound, format::specs::Tests::all_true))]
    fn is_sound(self) -> bool
        ensures { result ≡ sound self }
    {
        chosen_sound(&self.chosen) && self.activity.is_none_or(Exchange::is_sound)
    }

    // Starts an exchange with a node and answers the bus to send on, or refuses: STATE, FIELD, BUSY.
    #[tactic(auto, unfolding(crate::specs::Exchanges::starting))]
    pub fn start(self, kind: Kind, node: u8) -> Moved
        ensures { exchanges.master_after result ≡ exchanges.starting self kind node }
    {
        self.hand_back(self.started(kind, node))
    }

    // A reply has come in: done if it is the one awaited, else refused: STATE, FIELD, IDLE,
    // NOTAWAITED.
    #[tactic(auto, unfolding(crate::specs::Exchanges::replying))]
    pub fn reply(self, bus: u8, node: u8, function: u8) -> Moved
        ensures { exchanges.master_after result ≡ exchanges.replying self bus node function }
    {
        self.hand_back(self.replied(bus, node, function))
    }

    // No reply came in time: answers the bus to send on again, or gave up, or refuses: STATE, IDLE.
    #[tactic(auto, unfolding(crate::specs::Exchanges::timing_out))]
    pub fn timeout(self) -> Moved
        ensures { exchanges.master_after result ≡ exchanges.timing_out self }
    {
        self.hand_back(self.timed_out())
    }

    // A refusal hands back the master handed in.
    fn hand_back(self, given: Result<(Answer, Master), Refusal>) -> Moved
        ensures { exchanges.master_after result ≡ exchanges.handed_back self (step_given given) }
    {
        match given {
            Ok((answer, master)) => Moved {
                master,
                answer: Ok(answer),
            },
            Err(name) => Moved {
                master: self,
                answer: Err(name),
            },
        }
    }

    #[tactic(auto, unfolding(format::specs::Refusals::guarded))]
    fn started(self, kind: Kind, node: u8) -> Result<(Answer, Master), Refusal>
        ensures { step_given result ≡ exchanges.started self kind node }
    {
        if !self.is_sound() {
            return Err(Refusal::State);
        }
        if node > 63 {
            return Err(Refusal::Field);
        }
        if self.activity.is_some() {
            return Err(Refusal::Busy);
        }
        let chosen = self.chosen;
        let exchange = Exchange {
            kind,
            node,
            sends: 1,
        };
        Ok(UnderWay { chosen, exchange }.send())
    }

    #[tactic(auto, using(crate::proofs::Moves::node_in_range), unfolding(format::specs::Refusals::guarded, format::specs::Tests::all_true))]
    fn replied(self, bus: u8, node: u8, function: u8) -> Result<(Answer, Master), Refusal>
        ensures { step_given result ≡ exchanges.replied self bus node function }
    {
        if !self.is_sound() {
            return Err(Refusal::State);
        }
        if bus > 1 || node > 63 || function > 31 {
            return Err(Refusal::Field);
        }
        let chosen = self.chosen;
        let exchange = self.activity.ok_or(Refusal::Idle)?;
        let under_way = UnderWay { chosen, exchange };
        if !under_way.counts(bus, node, function) {
            return Err(Refusal::NotAwaited);
        }
        Ok(end(chosen, Answer::Done))
    }

    #[tactic(auto, using(crate::proofs::Moves::node_in_range), unfolding(format::specs::Refusals::guarded))]
    fn timed_out(self) -> Result<(Answer, Master), Refusal>
        ensures { step_given result ≡ exchanges.timed_out self }
    {
        if !self.is_sound() {
            return Err(Refusal::State);
        }
        let chosen = self.chosen;
        let exchange = self.activity.ok_or(Refusal::Idle)?;
        Ok(UnderWay { chosen, exchange }.expire())
    }
}

// The claims of this crate. It does nothing: its contract ties each claim to its proof.
pub fn promised()
    ensures new_is_sound { claims.NewIsSound }
    ensures stays_sound { claims.StaysSound }
    ensures refused_keeps { claims.RefusedKeeps }
    ensures refused_play_no_part { claims.RefusedPlayNoPart }
    ensures unanswered { claims.Unanswered }
    ensures answered { claims.Answered }
    ensures functions { claims.Functions }
    ensures buses_kept { claims.BusesKept }
    ensures latest_send { claims.LatestSend }
    ensures late_reply { claims.LateReply }
    ensures one_answer { claims.OneAnswer }
    ensures examples { Examples }
{}
