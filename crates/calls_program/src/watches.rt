// A watch over the silence of both buses.
ghost use Rattle.std.specs.Prelude.{◌≡◌};
ghost use Rattle.watch.specs.Watching.{hearing, checking};
ghost use Rattle.calls_program.specs.Requests.{byte_at, number4_at};
ghost use Rattle.calls_program.specs.Responses.{responds, out_with_watch};
ghost use Rattle.calls_program.specs.Operations.{as_renewed, as_heard, as_checked};

use crate::bench::Bench;
use crate::request::{byte, word};
use crate::response::{put_outcome, put_value};
use copying::copy_in;
use watch::Watch;

// The size of an answer with the last times.
const WITH_TIMES: usize = 12;

// The response to a call: the answer, which is written already, and the last times.
#[tactic(auto, unfolding(crate::specs::Responses::out_with_watch))]
fn put_watch(watch: &Watch, out: &mut [u8]) -> usize
    ensures { responds result out.new ≡ responds 12 (out_with_watch out.old watch.now) }
{
    copy_in(out, 4, &watch.a.to_be_bytes());
    copy_in(out, 8, &watch.b.to_be_bytes());
    WITH_TIMES
}

impl Bench {
    ghost use Rattle.calls_program.specs.Benches.{as_bench, with_watch};

    pub fn renew_watch(&mut self, args: &[u8], out: &mut [u8]) -> usize
        ensures { as_bench self.new result out.new ≡ with_watch self.old (as_renewed (number4_at args.now 0)) out.old }
    {
        self.watch = Watch::new(word(args, 0));
        put_value(out, 0);
        put_watch(&self.watch, out)
    }

    pub fn hear(&mut self, args: &[u8], out: &mut [u8]) -> usize
        ensures { as_bench self.new result out.new ≡ with_watch self.old (as_heard (hearing self.old.watch (byte_at args.now 0) (number4_at args.now 1))) out.old }
    {
        let heard = self.watch.heard(byte(args, 0), word(args, 1));
        self.watch = heard.watch;
        put_outcome(out, heard.answer);
        put_watch(&self.watch, out)
    }

    pub fn check(&mut self, args: &[u8], out: &mut [u8]) -> usize
        ensures { as_bench self.new result out.new ≡ with_watch self.old (as_checked (checking self.old.watch (number4_at args.now 0))) out.old }
    {
        let checked = self.watch.check(word(args, 0));
        self.watch = checked.watch;
        put_value(out, checked.resets());
        put_watch(&self.watch, out)
    }
}
