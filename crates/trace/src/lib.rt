// Traces: one record read from lent bytes, and one line of the listing written to a lent output.
#![tactic(auto)]

ghost use Rattle.std.specs.Prelude.{ℕ, ◌≡◌, List, [], ◌∷◌, ◌++◌, ◌+◌, ◌*◌, ◌≤◌, ◌<◌, length, take};
ghost use Rattle.format.specs.Formats.{flag_bits};
ghost use Rattle.format.specs.Refusals.{refused, number};
ghost use Rattle.format.specs.Refusals.{meaning as outcome·meaning};
ghost use Rattle.stream.specs.Answers.{meaning as reply·meaning};
ghost use Rattle.format.specs.Outputs.{answer, output_after};
ghost use Rattle.trace.specs.Records.{record_at, meaning};
ghost use Rattle.trace.specs.Lines.{ascii, decimal, field_text, fields_text, bus_name, broke_or, answer_text, columns, frame_line, refused_line, stopped_line, count_line, line_text, extended_in_range, line_in_range, writing};
ghost use Rattle.trace.specs.Claims.{RoomForLine, Decimal, Arriving, Sized, OneEntry};
ghost use Rattle.trace.specs.Bounds.{RecordBounds, LineTexts, LinesRefused};

use format::{Fields, Flag, Refusal};
use std::marker::Model;
use stream::Answer;

// What stands at the head of a trace's bytes.
#[derive(Clone, Copy, Debug, PartialEq, Eq)]
pub enum Entry {
    // A whole record: its bus, and how many bytes it takes. Its image is those after the first four.
    Record { bus: u8, size: usize },
    // Damaged by its length, its version or its bus.
    Damaged,
    // The bytes end inside a record. Where no more of them come, it is damaged.
    Cut,
    // No byte is left.
    End,
}

// What stands at the head of the input.
#[tactic(auto, unfolding(crate::specs::Records::record_at, crate::specs::Records::found_by))]
pub fn read_record(input: &[u8]) -> Entry
    ensures { meaning result input.now ≡ record_at input.now }
{
    if input.is_empty() {
        return Entry::End;
    }
    let [high, low, ..] = *input else {
        return Entry::Cut;
    };
    let follows = usize::from(u16::from_be_bytes([high, low]));
    if !(2..=15).contains(&follows) {
        return Entry::Damaged;
    }
    let size = 2 + follows;
    if input.len() < size {
        return Entry::Cut;
    }
    let bus = input[3];
    if input[2] != 1 || bus > 1 {
        return Entry::Damaged;
    }
    Entry::Record { bus, size }
}

// A line of the listing.
#[derive(Clone, Copy, Debug, PartialEq, Eq)]
pub enum Line {
    Header,
    // A record whose image is a frame, with what receiving it answered.
    Frame {
        ordinal: u64,
        // As handed in: `write_line` refuses a third bus with FIELD.
        bus: u8,
        fields: Fields,
        flag: Flag,
        number: u8,
        count: u8,
        answer: Result<Answer, Refusal>,
    },
    // A record whose image is refused by 1 to 5 or 25.
    Refused {
        ordinal: u64,
        bus: u8,
        name: Refusal,
    },
    // A damaged record.
    Stopped {
        ordinal: u64,
    },
    // How many records there were.
    Records {
        count: u64,
    },
}

// An output of so many bytes has room for every line.
pub const LINE_ROOM: usize = 96;

// A line while it is put together: of its bytes the first `len` count, and contracts see these. Each part
// fits by its contract; `write!` would not do, as no contract says when it fails, and ROOM has to mean that
// the output is too short. No part is copied by a call of memcpy: most have a byte or two.
#[derive(Drop)]
struct Text {
    bytes: [u8; LINE_ROOM],
    len: usize,
}

impl Model for Text {
    ghost Value = { List ℕ };

    ghost view = { λ text. take text.len text.bytes };

    ghost invariant = { λ text. text.len ≤ length text.bytes };
}

impl Text {
    fn new() -> Self
        ensures { result ≡ [] }
    {
        Text {
            bytes: [0; LINE_ROOM],
            len: 0,
        }
    }

    fn as_bytes(&self) -> &[u8]
        ensures { result.now ≡ self.now }
    {
        &self.bytes[..self.len]
    }

    #[tactic(auto, using(crate::proofs::Texts::pushed))]
    fn push_byte(&mut self, byte: u8)
        requires { length self.old < LINE_ROOM }
        ensures { self.new ≡ self.old ++ byte ∷ [] }
    {
        self.bytes[self.len] = byte;
        self.len += 1;
    }

    #[tactic(auto, using(crate::proofs::Texts::pushed))]
    fn push_str(&mut self, words: &str)
        requires { length self.old + length words.now ≤ LINE_ROOM }
        ensures { self.new ≡ self.old ++ words.now }
    {
        copying::copy_in(&mut self.bytes, self.len, words.as_bytes());
        self.len += words.len();
    }
}

// A number in decimal digits: its first ones, then its last.
#[tactic(auto, using(crate::proofs::Texts::numbers))]
fn push_number(text: &mut Text, n: u64)
    requires { length text.old + length (decimal n) ≤ LINE_ROOM }
    ensures { text.new ≡ text.old ++ decimal n }
{
    if n < 10 {
        text.push_byte(b'0' + n as u8);
        return;
    }
    push_number(text, n / 10);
    text.push_byte(b'0' + (n % 10) as u8);
}

// A number after a blank.
#[tactic(auto, using(crate::proofs::Texts::lengths), unfolding(crate::specs::Lines::field_text))]
fn push_field(text: &mut Text, n: u64)
    requires { length text.old + length (field_text n) ≤ LINE_ROOM }
    ensures { text.new ≡ text.old ++ field_text n }
{
    text.push_byte(b' ');
    push_number(text, n);
}

fn bus_name(bus: u8) -> &'static str
    ensures { result.now ≡ bus_name bus }
{
    if bus == 0 { " A" } else { " B" }
}

// The record's number and its bus, at the text's beginning.
#[tactic(auto, using(crate::proofs::Texts::lengths))]
fn push_start(text: &mut Text, ordinal: u64, bus: u8)
    requires { length text.old + 22 ≤ LINE_ROOM }
    ensures { text.new ≡ text.old ++ (decimal ordinal ++ bus_name bus) }
{
    push_number(text, ordinal);
    text.push_str(bus_name(bus));
}

// The fields in the header's order; a standard frame has none.
#[tactic(auto, using(crate::proofs::Texts::columns), unfolding(crate::specs::Lines::fields_text))]
fn push_columns(text: &mut Text, fields: Fields, flag: Flag, number: u8, count: u8)
    requires { length text.old + 32 ≤ LINE_ROOM }
    ensures pushed { text.new ≡ text.old ++ fields_text (columns fields (flag_bits flag) number count) }
    ensures upper_bound { length text.new ≤ length text.old + 32 }
{
    let Fields::Extended {
        priority,
        source,
        group,
        destination,
        function,
    } = fields
    else {
        return;
    };
    for value in [
        priority,
        source,
        group,
        destination,
        flag.bits(),
        number,
        function,
        count,
    ] {
        push_field(text, u64::from(value));
    }
}

#[tactic(auto, using(crate::proofs::Texts::lengths))]
fn push_refusal(text: &mut Text, name: Refusal)
    requires { length text.old + 29 ≤ LINE_ROOM }
    ensures { text.new ≡ text.old ++ answer_text (refused (number name)) }
{
    text.push_str(" refused");
    push_field(text, u64::from(name.number()));
}

fn broke_or(broke: bool) -> &'static str
    ensures { result.now ≡ broke_or broke }
{
    if broke { " broke" } else { "" }
}

#[tactic(auto, using(crate::proofs::Texts::lengths))]
fn push_answer(text: &mut Text, answer: Result<Answer, Refusal>)
    requires { length text.old + 34 ≤ LINE_ROOM }
    ensures { text.new ≡ text.old ++ answer_text (reply·meaning answer) }
{
    match answer {
        Ok(Answer::Packet { length, broke }) => {
            text.push_str(" packet");
            push_field(text, length as u64);
            text.push_str(broke_or(broke));
        }
        Ok(Answer::Kept { broke }) => {
            text.push_str(" kept");
            text.push_str(broke_or(broke));
        }
        Ok(Answer::Filtered) => text.push_str(" filtered"),
        Err(name) => push_refusal(text, name),
    }
}

// Only an extended frame has a line.
fn is_listed(fields: Fields) -> bool
    ensures { result ≡ extended_in_range fields }
{
    matches!(fields, Fields::Extended { .. }) && fields.in_range()
}

impl Line {
    // Whether the bus and the fields are in their ranges.
    #[tactic(auto, unfolding(crate::specs::Lines::line_in_range, format::specs::Tests::all_true, format::specs::Tests::all_after))]
    fn in_range(self) -> bool
        ensures { result ≡ line_in_range self }
    {
        match self {
            Line::Frame {
                bus,
                fields,
                number,
                count,
                ..
            } => bus <= 1 && is_listed(fields) && number <= 63 && count <= 8,
            Line::Refused { bus, .. } => bus <= 1,
            Line::Header | Line::Stopped { .. } | Line::Records { .. } => true,
        }
    }

    // The whole line, put into an empty text: lent, so that its bytes are not copied on return.
    #[tactic(auto, using(crate::proofs::Texts::lengths))]
    fn push(self, text: &mut Text)
        requires { text.old ≡ [] }
        ensures { text.new ≡ line_text self }
    {
        match self {
            Line::Header => text.push_str(
                "record bus priority source group dest flag number function count answer",
            ),
            Line::Frame {
                ordinal,
                bus,
                fields,
                flag,
                number,
                count,
                answer,
            } => {
                push_start(text, ordinal, bus);
                push_columns(text, fields, flag, number, count);
                push_answer(text, answer);
            }
            Line::Refused { ordinal, bus, name } => {
                push_start(text, ordinal, bus);
                push_refusal(text, name);
            }
            Line::Stopped { ordinal } => {
                push_number(text, ordinal);
                text.push_str(" stopped");
            }
            Line::Records { count } => {
                text.push_str("records");
                push_field(text, count);
            }
        }
        text.push_byte(b'\n');
    }
}

// Writes a line over the head of the output and answers its length, or refuses: FIELD, ROOM.
#[tactic(auto, using(copying::proofs::Copying::head_copied), unfolding(crate::specs::Lines::writing, format::specs::Refusals::checked_then, format::specs::Refusals::guarded, format::specs::Outputs::fitting))]
pub fn write_line(line: Line, output: &mut [u8]) -> Result<usize, Refusal>
    ensures result_value { outcome·meaning result ≡ answer (writing line (length output.old)) }
    ensures output_after { output.new ≡ output_after (writing line (length output.old)) output.old }
{
    if !line.in_range() {
        return Err(Refusal::Field);
    }
    let mut text = Text::new();
    line.push(&mut text);
    let bytes = text.as_bytes();
    let n = bytes.len();
    if output.len() < n {
        return Err(Refusal::Room);
    }
    copying::copy_in(output, 0, bytes);
    Ok(n)
}

// The claims of this crate. It does nothing: its contract ties each claim to its proof.
pub fn promised()
    ensures room_for_line { RoomForLine }
    ensures decimal { Decimal }
    ensures arriving { Arriving }
    ensures sized { Sized }
    ensures one_entry { OneEntry }
    ensures record_bounds { RecordBounds }
    ensures line_texts { LineTexts }
    ensures lines_refused { LinesRefused }
{}
