// Calls that hold no state: images judged, packets split, refusals numbered, identifiers filtered,
// records read and lines written.
ghost use Rattle.std.specs.Prelude.{◌≡◌, ℕ, ◌<◌, Bool, length, replicate};
ghost use Rattle.format.specs.Refusals.{meaning};
ghost use Rattle.format.specs.Outputs.{answer, output_after};
ghost use Rattle.trace.specs.Lines.{writing};
ghost use Rattle.copying.specs.Copy.{written};
ghost use Rattle.format.specs.Refusals as refusals;
ghost use Rattle.packet.specs.Send.{piece_count};
ghost use Rattle.trace.specs.Records.{record_at};
ghost use Rattle.filter.specs.Filters as filters;
ghost use Rattle.calls_program.specs.Requests.{byte_at, number8_at, format_named, refusal_named};
ghost use Rattle.calls_program.specs.Responses.{responds, room_for, answer_alone, answer_bytes, outcome_bytes, found_bytes};
ghost use Rattle.calls_program.specs.Images.{piece_in, with_frame, accepted_bytes};
ghost use Rattle.calls_program.specs.Images.{piece_done, judge_done, filter_done, row_done, line_done};

use crate::request::{byte, bytes, fields, format_of, line_in, long, number, refusal_of, rest};
use crate::response::{ANSWER, Says, field_bytes, put_answer, put_outcome, put_refused, put_value};
use copying::copy_in;
use filter::{Filter, Pair};
use format::Refusal;
use frame::Head;
use trace::{Entry, Line};

pub fn count(args: &[u8], out: &mut [u8]) -> usize
    ensures { responds result out.new ≡ answer_alone (outcome_bytes (piece_count (format_named (byte_at args.now 0)) (number8_at args.now 1))) out.old }
{
    let format = format_of(byte(args, 0));
    put_outcome(out, packet::piece_count(format, long(args, 1) as usize));
    ANSWER
}

// The call of PIECE, on an output that is all EE.
#[tactic(auto, unfolding(crate::specs::Images::piece_in))]
fn piece_over(args: &[u8], output: &mut [u8]) -> Result<usize, Refusal>
    ensures result_value { meaning result ≡ answer (piece_in args.now (length output.old)) }
    ensures output_after { output.new ≡ output_after (piece_in args.now (length output.old)) (replicate (length output.old) 0xEE) }
{
    output.fill(0xEE);
    let fields = fields(args, 1, format_of(byte(args, 0)));
    packet::write_piece(fields, rest(args, 9), number(args, 6), output)
}

// The output lent to the call is the part of the response after the answer.
#[tactic(auto, unfolding(crate::specs::Images::piece_done))]
pub fn piece(args: &[u8], out: &mut [u8]) -> usize
    ensures { responds result out.new ≡ piece_done args.now out.old }
{
    let size = ANSWER + usize::from(byte(args, 8));
    if size > out.len() {
        return 0;
    }
    let answer = piece_over(args, &mut out[ANSWER..size]);
    put_outcome(out, answer);
    size
}

// Where the packet bytes begin, then format, fields, flag and number.
#[tactic(auto, unfolding(crate::specs::Images::with_frame))]
fn put_head(out: &mut [u8], head: Head) -> usize
    ensures { responds result out.new ≡ responds 12 (with_frame out.old head.start head.fields head.flag head.number) }
{
    put_value(out, head.start);
    copy_in(out, ANSWER, &field_bytes(head.fields));
    copy_in(out, 10, &[head.flag.bits(), head.number]);
    12
}

#[tactic(auto, unfolding(crate::specs::Images::judge_done))]
pub fn judge(args: &[u8], out: &mut [u8]) -> usize
    ensures { responds result out.new ≡ judge_done args.now out.old }
{
    match frame::judge(format_of(byte(args, 0)), rest(args, 1)) {
        Ok(head) => put_head(out, head),
        Err(name) => {
            put_refused(out, name);
            ANSWER
        }
    }
}

pub fn refusal(args: &[u8], out: &mut [u8]) -> usize
    ensures { responds result out.new ≡ answer_alone (answer_bytes 4 (refusals.number (refusal_named (byte_at args.now 0))) 0) out.old }
{
    put_refused(out, refusal_of(byte(args, 0)));
    ANSWER
}

// A byte for each identifier from the one given: 1 if it is accepted.
fn accepted<F: Fn(u16) -> bool>(bytes: &mut [u8], accepts: F, first: u16)
    requires { F.IsAlwaysCallable accepts }
    ensures { (test : ℕ → Bool) → ((id : ℕ) (ok : Bool) → id < 65536 → F.post accepts id ok → ok ≡ test id) → bytes.new ≡ accepted_bytes test (length bytes.old) first }
{
    let mut id = first;
    for byte in bytes.iter_mut() {
        *byte = u8::from(accepts(id));
        id = id.wrapping_add(1);
    }
}

// So many of them, if the output has room.
fn put_accepted<F: Fn(u16) -> bool>(out: &mut [u8], accepts: F, first: usize, n: usize) -> usize
    requires callable { F.IsAlwaysCallable accepts }
    requires identifier { first < 65536 }
    ensures { (test : ℕ → Bool) → ((id : ℕ) (ok : Bool) → id < 65536 → F.post accepts id ok → ok ≡ test id) → responds result out.new ≡ room_for n out.old (written out.old 0 (accepted_bytes test n first)) }
{
    if n > out.len() {
        return 0;
    }
    accepted(&mut out[..n], accepts, first as u16);
    n
}

#[tactic(auto, unfolding(crate::specs::Images::filter_done, crate::specs::Images::accepted_done))]
pub fn filter(args: &[u8], out: &mut [u8]) -> usize
    ensures { responds result out.new ≡ filter_done args.now out.old }
{
    let filter = Filter {
        code: number(args, 0) as u16,
        mask: number(args, 2) as u16,
    };
    put_accepted(
        out,
        |id| filter.accepts(id),
        number(args, 4),
        number(args, 6),
    )
}

// The pair of the row that stands at the head of the request.
#[tactic(auto, unfolding(filter::specs::Filters::row_pair))]
fn row_pair(args: &[u8]) -> Pair
    ensures { result ≡ filters.row_pair args.now }
{
    Pair::from_row(bytes(args, 0))
}

#[tactic(auto, unfolding(crate::specs::Images::row_done, crate::specs::Images::accepted_done))]
pub fn row(args: &[u8], out: &mut [u8]) -> usize
    ensures { responds result out.new ≡ row_done args.now out.old }
{
    let pair = row_pair(args);
    put_accepted(
        out,
        |id| pair.accepts(id),
        number(args, 8),
        number(args, 10),
    )
}

pub fn record(args: &[u8], out: &mut [u8]) -> usize
    ensures { responds result out.new ≡ answer_alone (found_bytes (record_at args.now)) out.old }
{
    match trace::read_record(args) {
        Entry::Record { bus, size } => put_answer(out, Says::Record, size, bus),
        Entry::Damaged => put_answer(out, Says::Damaged, 0, 0),
        Entry::Cut => put_answer(out, Says::Cut, 0, 0),
        Entry::End => put_answer(out, Says::Nothing, 0, 0),
    }
    ANSWER
}

// The call of LINE, on an output that is all '-'.
fn line_over(line: Line, output: &mut [u8]) -> Result<usize, Refusal>
    ensures result_value { meaning result ≡ answer (writing line (length output.old)) }
    ensures output_after { output.new ≡ output_after (writing line (length output.old)) (replicate (length output.old) 45) }
{
    output.fill(b'-');
    trace::write_line(line, output)
}

#[tactic(auto, unfolding(crate::specs::Images::line_done))]
pub fn line(args: &[u8], out: &mut [u8]) -> usize
    ensures { responds result out.new ≡ line_done args.now out.old }
{
    let size = ANSWER + usize::from(byte(args, 0));
    if size > out.len() {
        return 0;
    }
    let answer = line_over(line_in(args), &mut out[ANSWER..size]);
    put_outcome(out, answer);
    size
}
