// A master and its exchange.
ghost use Rattle.std.specs.Prelude.{◌≡◌};
ghost use Rattle.copying.specs.Copy.{copied};
ghost use Rattle.master.specs.Masters.{new_master};
ghost use Rattle.master.specs.Exchanges as exchanges;
ghost use Rattle.calls_program.specs.Requests.{byte_at, kind_named, activity_named, master_named};
ghost use Rattle.calls_program.specs.Responses.{responds, told_bytes, exchange_bytes, out_with_master};
ghost use Rattle.calls_program.specs.Operations.{as_called, as_set};

use crate::bench::Bench;
use crate::request::byte;
use crate::response::{ANSWER, Says, put_answer, put_refused, put_value};
use copying::copy_in;
use format::Refusal;
use master::{Answer, Exchange, Kind, Master, Moved};

// Where the chosen buses stand in a response, after the answer and the exchange.
const CHOSEN: usize = 7;

// The size of an answer with the master.
const WITH_MASTER: usize = 71;

fn activity_bytes(activity: Option<Exchange>) -> [u8; 3]
    ensures { result ≡ exchange_bytes activity }
{
    match activity {
        None => [0; 3],
        Some(Exchange { kind, node, sends }) => [u8::from(kind), node, sends],
    }
}

fn put_told(out: &mut [u8], answer: Result<Answer, Refusal>)
    ensures { out.new ≡ copied out.old 0 (told_bytes (exchanges.meaning answer)) }
{
    match answer {
        Ok(Answer::Send(bus)) => put_answer(out, Says::Send, usize::from(bus), 0),
        Ok(Answer::Done) => put_answer(out, Says::Done, 0, 0),
        Ok(Answer::GaveUp) => put_answer(out, Says::GaveUp, 0, 0),
        Err(name) => put_refused(out, name),
    }
}

// The response to a call: the answer, which is written already, and the master.
#[tactic(auto, unfolding(crate::specs::Responses::out_with_master))]
fn put_master(master: &Master, out: &mut [u8]) -> usize
    ensures { responds result out.new ≡ responds 71 (out_with_master out.old master.now) }
{
    copy_in(out, ANSWER, &activity_bytes(master.activity));
    copy_in(out, CHOSEN, &master.chosen);
    WITH_MASTER
}

// The kind of a byte that is 1 to 3.
#[tactic(auto, using(crate::proofs::Named::kind_read), unfolding(crate::specs::Requests::kind_named))]
fn kind_in(code: u8) -> Kind
    ensures { result ≡ kind_named code }
{
    Kind::try_from(code).unwrap_or(Kind::Command)
}

#[tactic(auto, unfolding(crate::specs::Requests::activity_named))]
fn activity_of(kind: u8, node: u8, sends: u8) -> Option<Exchange>
    ensures { result ≡ activity_named kind node sends }
{
    if kind == 0 {
        return None;
    }
    let kind = kind_in(kind);
    Some(Exchange { kind, node, sends })
}

// A master by hand: A chosen for every node but one, and an exchange or none.
#[tactic(auto, unfolding(crate::specs::Requests::master_named))]
fn master_in(args: &[u8]) -> Master
    ensures { result ≡ master_named args.now }
{
    let mut chosen = [0; 64];
    chosen[usize::from(byte(args, 0) % 64)] = byte(args, 1);
    Master {
        chosen,
        activity: activity_of(byte(args, 2), byte(args, 3), byte(args, 4)),
    }
}

impl Bench {
    ghost use Rattle.calls_program.specs.Benches.{as_bench, with_master};

    // What a call answers and hands back.
    fn carry_on(&mut self, moved: Moved, out: &mut [u8]) -> usize
        ensures { as_bench self.new result out.new ≡ with_master self.old (as_called (exchanges.master_after moved)) out.old }
    {
        self.master = moved.master;
        put_told(out, moved.answer);
        put_master(&self.master, out)
    }

    // A master that no call has moved: a new one, or one by hand.
    fn set_master(&mut self, master: Master, out: &mut [u8]) -> usize
        ensures { as_bench self.new result out.new ≡ with_master self.old (as_set master) out.old }
    {
        self.master = master;
        put_value(out, 0);
        put_master(&self.master, out)
    }

    pub fn renew_master(&mut self, out: &mut [u8]) -> usize
        ensures { as_bench self.new result out.new ≡ with_master self.old (as_set new_master) out.old }
    {
        self.set_master(Master::new(), out)
    }

    pub fn set_exchange(&mut self, args: &[u8], out: &mut [u8]) -> usize
        ensures { as_bench self.new result out.new ≡ with_master self.old (as_set (master_named args.now)) out.old }
    {
        self.set_master(master_in(args), out)
    }

    pub fn start(&mut self, args: &[u8], out: &mut [u8]) -> usize
        ensures { as_bench self.new result out.new ≡ with_master self.old (as_called (exchanges.starting self.old.master (kind_named (byte_at args.now 0)) (byte_at args.now 1))) out.old }
    {
        let moved = self.master.start(kind_in(byte(args, 0)), byte(args, 1));
        self.carry_on(moved, out)
    }

    pub fn reply(&mut self, args: &[u8], out: &mut [u8]) -> usize
        ensures { as_bench self.new result out.new ≡ with_master self.old (as_called (exchanges.replying self.old.master (byte_at args.now 0) (byte_at args.now 1) (byte_at args.now 2))) out.old }
    {
        let moved = self
            .master
            .reply(byte(args, 0), byte(args, 1), byte(args, 2));
        self.carry_on(moved, out)
    }

    pub fn time_out(&mut self, out: &mut [u8]) -> usize
        ensures { as_bench self.new result out.new ≡ with_master self.old (as_called (exchanges.timing_out self.old.master)) out.old }
    {
        let moved = self.master.timeout();
        self.carry_on(moved, out)
    }
}
