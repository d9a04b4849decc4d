// The arguments of a request: bytes, numbers, formats, fields, keys and lines. A byte past the end
// is 0, which spares the proofs of all places; operations has tested that there is none. A place
// stands beside the bytes, as PROTOCOL.md tells it; a reader that moves on would hide which it is.
ghost use Rattle.std.specs.Prelude.{◌≡◌, ℕ, ◌+◌, ◌<◌, slice_index};
ghost use Rattle.calls_program.specs.Requests.{byte_at, number2_at, number4_at, number8_at, bytes_between, bytes_from, format_named, fields_at, key_at};
ghost use Rattle.calls_program.specs.Requests.{refusal_named, EachNamed, answer_of_line, frame_of_line, line_of};

use format::{Fields, Format, Refusal};
use frame::flag_of;
use slot::Key;
use stream::Answer;
use trace::Line;

// The byte at a place.
pub fn byte(args: &[u8], at: usize) -> u8
    ensures { result ≡ byte_at args.now at }
{
    args.get(at).copied().unwrap_or(0)
}

// What stands between two places; nothing if the second is past the end.
#[tactic(auto, unfolding(crate::specs::Requests::bytes_between))]
pub fn part(args: &[u8], from: usize, to: usize) -> &[u8]
    ensures { result.now ≡ bytes_between args.now from to }
{
    args.get(from..to).unwrap_or(&[])
}

// All from a place on.
pub fn rest(args: &[u8], from: usize) -> &[u8]
    ensures { result.now ≡ bytes_from args.now from }
{
    args.get(from..).unwrap_or(&[])
}

// So many bytes from a place on.
#[tactic(auto, using(crate::proofs::Steps::copied_more))]
pub fn bytes<const N: usize>(args: &[u8], at: usize) -> [u8; N]
    ensures { (i : ℕ) → i < N → slice_index result i ≡ byte_at args.now (at + i) }
{
    let rest = rest(args, at);
    let mut bytes = [0; N];
    for (i, place) in bytes.iter_mut().enumerate() {
        *place = byte(rest, i);
    }
    bytes
}

// The two-byte number at a place.
pub fn number(args: &[u8], at: usize) -> usize
    ensures upper_bound { result < 65536 }
    ensures value { result ≡ number2_at args.now at }
{
    usize::from(u16::from_be_bytes(bytes(args, at)))
}

// The four-byte number at a place.
#[tactic(auto, unfolding(crate::specs::Requests::number4_at))]
pub fn word(args: &[u8], at: usize) -> u32
    ensures { result ≡ number4_at args.now at }
{
    u32::from_be_bytes(bytes(args, at))
}

// The eight-byte number at a place.
#[tactic(auto, unfolding(crate::specs::Requests::number8_at, crate::specs::Requests::number4_at))]
pub fn long(args: &[u8], at: usize) -> u64
    ensures { result ≡ number8_at args.now at }
{
    u64::from_be_bytes(bytes(args, at))
}

// The format of a byte that is at most 1. It is read by TryFrom; what is none has a meaning here.
#[tactic(auto, using(crate::proofs::Named::format_read), unfolding(crate::specs::Requests::format_named))]
pub fn format_of(code: u8) -> Format
    ensures { result ≡ format_named code }
{
    Format::try_from(code).unwrap_or(Format::Standard)
}

// The fields of a format, of five bytes as they are; a standard identifier has only three.
#[tactic(auto, unfolding(crate::specs::Requests::fields_at))]
fn fields_of(bytes: [u8; 5], format: Format) -> Fields
    ensures { result ≡ fields_at bytes 0 format }
{
    match format {
        Format::Extended => {
            let [priority, source, group, destination, function] = bytes;
            Fields::Extended {
                priority,
                source,
                group,
                destination,
                function,
            }
        }
        Format::Standard => {
            let [priority, address, side, ..] = bytes;
            Fields::Standard {
                priority,
                address,
                side,
            }
        }
    }
}

// The fields from a place on.
#[tactic(auto, unfolding(crate::specs::Requests::fields_at))]
pub fn fields(args: &[u8], at: usize, format: Format) -> Fields
    ensures { result ≡ fields_at args.now at format }
{
    fields_of(bytes(args, at), format)
}

// A key: bus, format and five fields, from a place on.
#[tactic(auto, unfolding(crate::specs::Requests::key_at, crate::specs::Requests::fields_at))]
pub fn key(args: &[u8], at: usize) -> Key
    ensures { result ≡ key_at args.now at }
{
    let [bus, format, a, b, c, d, e] = bytes::<7>(args, at);
    Key {
        bus,
        fields: fields_of([a, b, c, d, e], format_of(format)),
    }
}

// The refusal of a number; one that is no refusal's is read as STATE, which TryFrom does not say.
#[tactic(auto, using(crate::proofs::Named::refusal_read), unfolding(crate::specs::Requests::refusal_named))]
pub fn refusal_of(number: u8) -> Refusal
    ensures { result ≡ refusal_named number }
{
    Refusal::try_from(number).unwrap_or(Refusal::State)
}

// It does nothing: its contract ties it to its proof that every refusal has a place above.
pub fn each_named()
    ensures { EachNamed }
{}

// The answer in a line: ten bytes from place 20 on, of which the number's lowest names a refusal.
#[tactic(auto, unfolding(crate::specs::Requests::answer_of_line))]
fn answer_in(args: &[u8]) -> Result<Answer, Refusal>
    ensures { result ≡ answer_of_line args.now }
{
    let broke = byte(args, 29) == 1;
    match byte(args, 20) {
        1 => Ok(Answer::Packet {
            length: long(args, 21) as usize,
            broke,
        }),
        2 => Ok(Answer::Kept { broke }),
        3 => Ok(Answer::Filtered),
        _ => Err(refusal_of(byte(args, 28))),
    }
}

#[tactic(auto, unfolding(crate::specs::Requests::frame_of_line))]
fn frame_in(args: &[u8]) -> Line
    ensures { result ≡ frame_of_line args.now }
{
    Line::Frame {
        ordinal: long(args, 2),
        bus: byte(args, 10),
        fields: fields(args, 12, format_of(byte(args, 11))),
        flag: flag_of(byte(args, 17)),
        number: byte(args, 18),
        count: byte(args, 19),
        answer: answer_in(args),
    }
}

// The line of a request to write one: after the room its kind, 0 to 4, and what it shows.
#[tactic(auto, unfolding(crate::specs::Requests::line_of))]
pub fn line_in(args: &[u8]) -> Line
    ensures { result ≡ line_of args.now }
{
    let ordinal = long(args, 2);
    match byte(args, 1) {
        0 => Line::Header,
        1 => frame_in(args),
        2 => Line::Refused {
            ordinal,
            bus: byte(args, 10),
            name: refusal_of(byte(args, 28)),
        },
        3 => Line::Stopped { ordinal },
        _ => Line::Records { count: ordinal },
    }
}
