// Reads requests from standard input, calls the library, and writes a response to each to standard
// output: compare/PROTOCOL.md.
#![tactic(auto)]

mod bench;
mod images;
mod listings;
mod masters;
mod operations;
mod request;
mod response;
mod stations;
mod watches;

ghost use Rattle.std.specs.Prelude.{◌≡◌, ◌+◌, ◌≤◌, length, Some, None, IfSome, IsNone};
ghost use Rattle.calls_program.specs.Working.{request_in, start_at, as_work, worked_one, worked_off};
ghost use Rattle.calls_program.specs.Working.{GoesOn, Turned};

use bench::Bench;
use copying::copy_in;
use std::io::{Input, Print};

// Where the work stands on a filled input: the place of the next request, and how much of the
// output is filled.
#[derive(Clone, Copy, Debug, PartialEq, Eq)]
struct Work {
    at: usize,
    filled: usize,
}

// The request at a place of the input, without its length; none if it is not whole.
#[tactic(auto, unfolding(crate::specs::Working::request_in, crate::specs::Working::request_end))]
fn request_at(input: &[u8], at: usize) -> Option<&[u8]>
    ensures some { IfSome result (λ request. request_in input.now at ≡ Some request.now) }
    ensures none { IsNone result → request_in input.now at ≡ None }
    ensures place { IfSome result (λ request. at + 2 + length request.now ≤ length input.now) }
{
    let (size, rest) = input.get(at..)?.split_first_chunk()?;
    rest.get(..usize::from(u16::from_be_bytes(*size)))
}

// Where the next response starts in an output of so many bytes, after the two bytes of its length;
// none if there might not be room for the longest.
#[tactic(auto, unfolding(crate::specs::Working::start_at))]
fn start_of(room: usize, filled: usize, most: usize) -> Option<usize>
    ensures value { result ≡ start_at room filled most }
    ensures place { IfSome result (λ start. start + most ≤ room) }
{
    let start = filled.checked_add(2)?;
    (start.checked_add(most)? <= room).then_some(start)
}

// Works off one request, if one is whole and the output has room for any response: none is longer
// than that of STORE, all bytes.
#[tactic(auto, unfolding(crate::specs::Working::worked_one))]
fn step(bench: &mut Bench, work: Work, input: &[u8], output: &mut [u8]) -> Option<Work>
    ensures some { IfSome result (λ next. worked_one (as_work bench.old work output.old) input.now ≡ Some (as_work bench.new next output.new)) }
    ensures none { IsNone result → worked_one (as_work bench.old work output.old) input.now ≡ None }
    ensures kept { IsNone result → (bench.new ≡ bench.old) × (output.new ≡ output.old) }
{
    let request = request_at(input, work.at)?;
    let start = start_of(output.len(), work.filled, operations::BYTES)?;
    let size = bench.respond(request, &mut output[start..]);
    copy_in(output, work.filled, &response::number_bytes(size));
    Some(Work {
        at: work.at + 2 + request.len(),
        filled: start + size,
    })
}

// Works off the requests of an input, of which there are fewer than it has bytes, while the output
// has room.
#[tactic(auto, using(crate::proofs::Working::worked_end, crate::proofs::Working::worked_out))]
fn work_off(bench: &mut Bench, input: &[u8], output: &mut [u8]) -> Work
    ensures { as_work bench.new result output.new ≡ worked_off bench.old input.now output.old }
{
    let mut work = Work { at: 0, filled: 0 };
    for _ in 0..input.len() {
        let Some(next) = step(bench, work, input, output) else {
            break;
        };
        work = next;
    }
    work
}

// Writes the responses, and reads on after what is left; answers how much is held then, and none at
// the session's end. Where a whole request is left, as the output had no room, it does not read: its
// response must not wait for more input. How much is held stands beside the input, as pipes has it.
#[tactic(auto, using(crate::proofs::Working::gone_more))]
fn go_on(
    rt: &(impl Input + Print + Eprint),
    input: &mut [u8],
    held: usize,
    output: &[u8],
    work: Work,
) -> Option<usize>
    requires { held ≤ length input.old }
    ensures { GoesOn input.old work.at held result input.new }
{
    if !pipes::write_out(rt, output, work.filled) {
        return None;
    }
    let left = pipes::keep(input, work.at, held);
    if request_at(&input[..left], 0).is_some() {
        return Some(left);
    }
    let more = pipes::read_on(rt, input, left);
    (left < more).then_some(more)
}

// Works off what is held of the input, writes the responses and reads on.
fn turn(
    rt: &(impl Input + Print + Eprint),
    bench: &mut Bench,
    input: &mut [u8],
    held: usize,
    output: &mut [u8],
) -> Option<usize>
    requires { held ≤ length input.old }
    ensures { Turned bench.old held input.old output.old result bench.new input.new output.new }
{
    let work = work_off(bench, &input[..held], output);
    go_on(rt, input, held, output, work)
}

// A proved loop has to end, and nothing says that the input does: the turns are counted up to a
// number that no run comes to. The input has room for the longest request, and the output for the
// longest response.
fn serve(rt: &(impl Input + Print + Eprint), input: &mut [u8], output: &mut [u8])
    requires { (65537 ≤ length input.old) × (40002 ≤ length output.old) }
{
    let mut bench = Bench::new();
    let mut held = 0;
    for _ in 0..u64::MAX {
        let Some(more) = turn(rt, &mut bench, input, held, output) else {
            break;
        };
        held = more;
    }
}

fn main(rt: HostRuntime) {
    let mut input = [0; 131072];
    let mut output = [0; 131072];
    serve(&rt, &mut input, &mut output);
}
