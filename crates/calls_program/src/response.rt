// Writing responses: answers, slots and numbers. Bytes that would end past the output's end are left
// out, which spares the proofs of all places; it never happens, as there is room for the longest response.
ghost use Rattle.std.specs.Prelude.{◌≡◌, length};
ghost use Rattle.copying.specs.Copy.{copied};
ghost use Rattle.format.specs.Refusals as refusals;
ghost use Rattle.stream.specs.Answers as answers;
ghost use Rattle.calls_program.specs.Responses.{number_of, number2_bytes, answer_bytes, outcome_bytes, reply_bytes, out_with_slots};
ghost use Rattle.calls_program.specs.Responses as responses;

use copying::copy_in;
use format::{Fields, Refusal};
use slot::{Slot, Stream};
use stream::{Answer, Progress};

// The size of an answer.
pub const ANSWER: usize = 4;

// The size of an answer with the sixteen slots, of ten bytes each.
pub const WITH_SLOTS: usize = 164;

// The kinds of answers.
#[derive(Clone, Copy, Debug, PartialEq, Eq)]
pub enum Says {
    Packet = 1,
    Kept = 2,
    Filtered = 3,
    Refused = 4,
    Value = 5,
    Send = 6,
    Done = 7,
    GaveUp = 8,
    Record = 9,
    Damaged = 10,
    Cut = 11,
    Nothing = 12,
    Input = 13,
    Room = 14,
}

// Each byte is a step more than the one before it, modulo 256.
#[tactic(auto, using(crate::proofs::Steps::all_bytes), unfolding(crate::specs::Responses::filled_bytes))]
pub fn fill(bytes: &mut [u8], first: u8, step: u8)
    ensures { bytes.new ≡ responses.filled_bytes (length bytes.old) first step }
{
    let mut next = first;
    for byte in bytes.iter_mut() {
        *byte = next;
        next = next.wrapping_add(step);
    }
}

// The two bytes of a number. One that has no room in them, which no call gives, is shown as the
// largest that has.
#[tactic(auto, unfolding(crate::specs::Responses::number2_bytes, crate::specs::Responses::capped))]
pub fn number_bytes(n: usize) -> [u8; 2]
    ensures { result ≡ number2_bytes n }
{
    u16::try_from(n).unwrap_or(u16::MAX).to_be_bytes()
}

// The four bytes of an answer.
#[tactic(auto, unfolding(crate::specs::Responses::answer_bytes, crate::specs::Responses::number2_bytes))]
pub fn put_answer(out: &mut [u8], kind: Says, n: usize, more: u8)
    ensures { out.new ≡ copied out.old 0 (answer_bytes (number_of kind) n more) }
{
    let [high, low] = number_bytes(n);
    copy_in(out, 0, &[kind as u8, high, low, more]);
}

pub fn put_refused(out: &mut [u8], name: Refusal)
    ensures { out.new ≡ copied out.old 0 (answer_bytes 4 (refusals.number name) 0) }
{
    put_answer(out, Says::Refused, usize::from(name.number()), 0);
}

pub fn put_value(out: &mut [u8], n: usize)
    ensures { out.new ≡ copied out.old 0 (answer_bytes 5 n 0) }
{
    put_answer(out, Says::Value, n, 0);
}

// The answer of a call that gives a number or refuses.
pub fn put_outcome(out: &mut [u8], outcome: Result<usize, Refusal>)
    ensures { out.new ≡ copied out.old 0 (outcome_bytes (refusals.meaning outcome)) }
{
    match outcome {
        Ok(n) => put_value(out, n),
        Err(name) => put_refused(out, name),
    }
}

// The answer of receiving.
pub fn put_received(out: &mut [u8], answer: Result<Answer, Refusal>)
    ensures { out.new ≡ copied out.old 0 (reply_bytes (answers.meaning answer)) }
{
    match answer {
        Ok(Answer::Packet { length, broke }) => put_answer(
            out,
            Says::Packet,
            length,
            u8::from(broke),
        ),
        Ok(Answer::Kept { broke }) => put_answer(out, Says::Kept, 0, u8::from(broke)),
        Ok(Answer::Filtered) => put_answer(out, Says::Filtered, 0, 0),
        Err(name) => put_refused(out, name),
    }
}

// The format, and the five fields, of which the last two are 0 in standard.
pub fn field_bytes(fields: Fields) -> [u8; 6]
    ensures { result ≡ responses.field_bytes fields }
{
    match fields {
        Fields::Extended {
            priority,
            source,
            group,
            destination,
            function,
        } => [0, priority, source, group, destination, function],
        Fields::Standard {
            priority,
            address,
            side,
        } => [1, priority, address, side, 0, 0],
    }
}

// How far a stream is: its kind, and h.
fn progress_bytes(progress: Progress) -> [u8; 3]
    ensures { result ≡ responses.progress_bytes progress }
{
    let (kind, h) = match progress {
        Progress::Idle => (1, 0),
        Progress::Collecting(h) => (2, h),
        Progress::Done(h) => (3, h),
    };
    let [high, low] = h.to_be_bytes();
    [kind, high, low]
}

fn slot_bytes(slot: Slot) -> [u8; 10]
    ensures { result ≡ responses.occupancy_bytes slot.occupancy }
{
    let Some(Stream { key, progress }) = slot.occupancy else {
        return [0; 10];
    };
    let [kind, high, low] = progress_bytes(progress);
    let [format, a, b, c, d, e] = field_bytes(key.fields);
    [kind, high, low, key.bus, format, a, b, c, d, e]
}

// The sixteen slots, after the answer.
pub fn put_slots(out: &mut [u8], slots: &[Slot; 16])
    ensures { out.new ≡ out_with_slots out.old 4 slots.now }
{
    for (i, slot) in slots.iter().enumerate() {
        copy_in(out, ANSWER + 10 * i, &slot_bytes(*slot));
    }
}
