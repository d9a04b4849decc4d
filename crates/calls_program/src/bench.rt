// What the program holds between requests, and which part of it a request is for. A response is
// written to the lent output from its start, and its size handed back.
ghost use Rattle.std.specs.Prelude.{◌≡◌, ◌≤◌};

use crate::images;
use crate::operations::Operation;
use crate::stations::Desk;
use master::Master;
use watch::Watch;

#[derive(Clone, Copy)]
pub struct Bench {
    pub desk: Desk,
    pub master: Master,
    pub watch: Watch,
}

impl Bench {
    ghost use Rattle.calls_program.specs.Operations.{number_of};
    ghost use Rattle.calls_program.specs.Benches.{first_bench, as_bench, request_done, responding};

    pub fn new() -> Bench
        ensures { result ≡ first_bench }
    {
        Bench {
            desk: Desk::new(),
            master: Master::new(),
            watch: Watch::new(0),
        }
    }

    // Does what a request asks for, and writes the response. One arm for each operation: what they
    // take of the bench differs, so a table of functions would hand the whole of it to each.
    #[tactic(auto, unfolding(crate::specs::Benches::request_done, crate::specs::Benches::is_image, crate::specs::Benches::desk_done, crate::specs::Benches::other_done, crate::specs::Desks::station_done, crate::specs::Desks::keeping_done, crate::specs::Desks::listing_done, crate::specs::Images::image_done, crate::specs::Operations::master_done, crate::specs::Operations::watch_done, format::specs::Tests::all_true, format::specs::Tests::all_after))]
    fn carry_out(&mut self, operation: Operation, args: &[u8], out: &mut [u8]) -> usize
        ensures { as_bench self.new result out.new ≡ request_done (number_of operation) args.now self.old out.old }
    {
        match operation {
            Operation::New => self.desk.renew(args, out),
            Operation::Open => self.desk.open(args, out),
            Operation::Close => self.desk.close(args, out),
            Operation::Receive => self.desk.receive(args, out),
            Operation::Read => self.desk.read(args, out),
            Operation::Count => images::count(args, out),
            Operation::Piece => images::piece(args, out),
            Operation::Slot => self.desk.set_slot(args, out),
            Operation::Lend => self.desk.lend(args, out),
            Operation::Store => self.desk.show(args, out),
            Operation::Fill => self.desk.fill(args, out),
            Operation::Front => self.desk.set_front(args, out),
            Operation::Judge => images::judge(args, out),
            Operation::Number => images::refusal(args, out),
            Operation::Filter => images::filter(args, out),
            Operation::Row => images::row(args, out),
            Operation::Record => images::record(args, out),
            Operation::Line => images::line(args, out),
            Operation::Listing => self.desk.renew_listing(out),
            Operation::Listed => self.desk.set_count(args, out),
            Operation::List => self.desk.list(args, out),
            Operation::End => self.desk.end(args, out),
            Operation::Master => self.renew_master(out),
            Operation::Exchange => self.set_exchange(args, out),
            Operation::Start => self.start(args, out),
            Operation::Reply => self.reply(args, out),
            Operation::Timeout => self.time_out(out),
            Operation::Watch => self.renew_watch(args, out),
            Operation::Heard => self.hear(args, out),
            Operation::Check => self.check(args, out),
        }
    }

    // The response to a request. One that is none leaves all as it is, and its response is empty.
    #[tactic(auto, using(crate::proofs::Benches::no_request))]
    pub fn respond(&mut self, request: &[u8], out: &mut [u8]) -> usize
        ensures out_after { as_bench self.new result out.new ≡ responding self.old request.now out.old }
        ensures size_bound { result ≤ 40000 }
    {
        let Some((&first, args)) = request.split_first() else {
            return 0;
        };
        match Operation::try_from(first) {
            Ok(operation) if operation.takes(args) => self.carry_out(operation, args, out),
            _ => 0,
        }
    }
}
