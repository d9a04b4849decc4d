// The library that programs in C, C++, Rust and Python link: every call over numbers and lent bytes.
// library/include/siljuvatt.h describes the calls for their users.
#![tactic(auto)]

ghost use Rattle.std.specs.Prelude.{◌≡◌, ℕ, length, get_or, Ok};
ghost use Rattle.format.specs.Refusals.{Returned};
ghost use Rattle.format.specs.Refusals as outcomes;
ghost use Rattle.stream.specs.Answers as replies;
ghost use Rattle.master.specs.Exchanges as exchanges;
ghost use Rattle.format.specs.Outputs.{answer, output_after};
ghost use Rattle.packet.specs.Send as sending;
ghost use Rattle.filter.specs.Filters.{accepts, either_accepts, row_pair};
ghost use Rattle.station.specs.Read.{length_of};
ghost use Rattle.station_bytes.specs.Calls.{receive_in, open_in, close_in, read_in};
ghost use Rattle.master_bytes.specs.Calls as masters;
ghost use Rattle.watch_bytes.specs.States as watches;
ghost use Rattle.siljuvatt.specs.Words.{WordLaws, number_said, number_laws, reply_said, reply_laws, told_said, told_laws};
ghost use Rattle.siljuvatt.specs.Answers.{version, number_word, refused_word, broke_word, outcome_word, reply_word, told_word, reset_word};
ghost use Rattle.siljuvatt.specs.Arguments.{fields_from, key_from};
ghost use Rattle.siljuvatt.specs.Calls.{count_in, new_in, start_after};
ghost use Rattle.siljuvatt.specs.Claims.{OneWord, Small, ReadsThere};
ghost use Rattle.siljuvatt.specs.Bounds.{LibraryBounds};

use filter::{Filter, Pair};
use format::{Fields, Format, Refusal};
use packet::{piece_count, write_piece};
use slot::Key;
use stream::{Answer, Area};

// A call's answer that is not refused, as a number of 32 bits.
trait Word {
    // The word of what a call answers: one of these, or a refusal.
    ghost said: { Returned Self → ℕ };

    // Each impl proves that a refusal has one word, whatever is refused.
    ghost laws: { WordLaws said };

    fn word(self) -> u32
        ensures { result ≡ said (Ok self) };
}

// Below 2^16, and no cast alone: that no call's number is larger is a claim (Small), and no type.
fn low(n: usize) -> u32
    ensures { result ≡ number_word n }
{
    (n % 65536) as u32
}

fn refused(name: Refusal) -> u32
    ensures { result ≡ refused_word (outcomes.number name) }
{
    0x8000_0000 + u32::from(name.number())
}

fn word_of<A: Word>(answer: Result<A, Refusal>) -> u32
    ensures { result ≡ A.said answer }
{
    match answer {
        Ok(answer) => answer.word(),
        Err(name) => refused(name),
    }
}

// A count, a length, a slot's number, a bus.
impl Word for usize {
    ghost said = { number_said };

    ghost laws = { number_laws };

    fn word(self) -> u32 {
        low(self)
    }
}

// Kinds 4, 5 and 6; bit 24 for "broke".
impl Word for Answer {
    ghost said = { reply_said };

    ghost laws = { reply_laws };

    fn word(self) -> u32 {
        match self {
            Answer::Packet { length, broke } => 0x4_0000 + low(length) + broke_word(broke),
            Answer::Kept { broke } => 0x5_0000 + broke_word(broke),
            Answer::Filtered => 0x6_0000,
        }
    }
}

// Kinds 7, 8 and 9.
impl Word for master::Answer {
    ghost said = { told_said };

    ghost laws = { told_laws };

    fn word(self) -> u32 {
        match self {
            master::Answer::Send(bus) => 0x7_0000 + u32::from(bus),
            master::Answer::Done => 0x8_0000,
            master::Answer::GaveUp => 0x9_0000,
        }
    }
}

fn broke_word(broke: bool) -> u32
    ensures { result ≡ broke_word broke }
{
    0x100_0000 * u32::from(broke)
}

// A check's answer: bit 25 for bus A, bit 26 for bus B. No refusal has these bits. It is no Word: its
// number is a usize, as a count is.
fn reset_word(outcome: Result<usize, Refusal>) -> u32
    ensures { result ≡ reset_word (outcomes.meaning outcome) }
{
    match outcome {
        Ok(n) => (n % 4) as u32 * 0x200_0000,
        Err(name) => refused(name),
    }
}

// Bytes that are none are fields out of range.
#[tactic(auto, unfolding(crate::specs::Arguments::fields_from, crate::specs::Arguments::extended_fields, crate::specs::Arguments::standard_fields))]
fn fields_of(format: u8, bytes: &[u8]) -> Fields
    ensures { result ≡ fields_from format bytes.now }
{
    match (format, bytes) {
        (0, &[priority, source, group, destination, function]) => Fields::Extended {
            priority,
            source,
            group,
            destination,
            function,
        },
        (1, &[priority, address, side]) => Fields::Standard {
            priority,
            address,
            side,
        },
        _ => Fields::Standard {
            priority: 255,
            address: 0,
            side: 0,
        },
    }
}

// The number of the format of a station, as C hands one in; 0 where there are too few bytes to be one.
fn format_in(state: &[u8]) -> u8
    ensures { result ≡ get_or state.now 128 0 }
{
    state.get(128).copied().unwrap_or(0)
}

// The version of the library: 65,536 × major + 256 × minor + patch.
#[unsafe(no_mangle)]
pub extern "C" fn siljuvatt_version() -> u32
    ensures { result ≡ version }
{
    512
}

// The number of pieces of a packet of that size, or: FIELD, SIZE.
#[tactic(auto, using(crate::proofs::Formats::a_format, crate::proofs::Formats::no_format), unfolding(crate::specs::Calls::count_in))]
#[unsafe(no_mangle)]
pub extern "C" fn siljuvatt_piece_count(format: u8, size: usize) -> u32
    ensures { result ≡ outcome_word (count_in format size) }
{
    let Ok(format) = Format::try_from(format) else {
        return refused(Refusal::Field);
    };
    word_of(piece_count(format, size))
}

// Writes the image of piece k of a packet over the head of the output and answers its length, or: FIELD,
// SIZE, INDEX, ROOM.
#[unsafe(no_mangle)]
pub extern "C" fn siljuvatt_write_piece(
    format: u8,
    fields: &[u8],
    packet: &[u8],
    k: usize,
    output: &mut [u8],
) -> u32
    ensures value { result ≡ outcome_word (answer (sending.send (fields_from format fields.now) packet.now k (length output.old))) }
    ensures output_after { output.new ≡ output_after (sending.send (fields_from format fields.now) packet.now k (length output.old)) output.old }
{
    word_of(write_piece(fields_of(format, fields), packet, k, output))
}

// Makes the bytes those of a new station of a format and answers 0, or: STATE, FIELD.
#[tactic(auto, using(crate::proofs::Formats::a_format, crate::proofs::Formats::no_format), unfolding(crate::specs::Calls::new_in))]
#[unsafe(no_mangle)]
pub extern "C" fn siljuvatt_station_new(state: &mut [u8], format: u8) -> u32
    ensures value { result ≡ outcome_word (new_in state.old format).answer }
    ensures state_after { state.new ≡ (new_in state.old format).state }
{
    if state.len() != station_bytes::State::SIZE {
        return refused(Refusal::State);
    }
    let Ok(format) = Format::try_from(format) else {
        return refused(Refusal::Field);
    };
    word_of(station_bytes::new(state, format))
}

// Opens a key in the lowest closed slot and answers that slot's number, or: STATE, FIELD, TAKEN, FULL.
#[unsafe(no_mangle)]
pub extern "C" fn siljuvatt_open(state: &mut [u8], bus: u8, fields: &[u8]) -> u32
    ensures value { result ≡ outcome_word (open_in state.old (key_from state.old bus fields.now)).answer }
    ensures state_after { state.new ≡ (open_in state.old (key_from state.old bus fields.now)).state }
{
    let format = format_in(state);
    let fields = fields_of(format, fields);
    word_of(station_bytes::open(state, Key { bus, fields }))
}

// Closes a slot and answers its number, or: STATE, CLOSED.
#[unsafe(no_mangle)]
pub extern "C" fn siljuvatt_close(state: &mut [u8], slot: usize) -> u32
    ensures value { result ≡ outcome_word (close_in state.old slot).answer }
    ensures state_after { state.new ≡ (close_in state.old slot).state }
{
    word_of(station_bytes::close(state, slot))
}

// Receives an image on a bus: packet and its length, kept, filtered, or: STATE, STORE, FIELD, LENGTH, FORM,
// REMOTE, COUNT, SURPLUS, PIECE, ORPHAN, STEP, LONG.
#[unsafe(no_mangle)]
pub extern "C" fn siljuvatt_receive(
    state: &mut [u8],
    store: &mut [u8],
    bus: u8,
    image: &[u8],
) -> u32
    ensures value { result ≡ reply_word (receive_in state.old store.old bus image.now).answer }
    ensures state_after { state.new ≡ (receive_in state.old store.old bus image.now).state }
    ensures store_after { store.new ≡ (receive_in state.old store.old bus image.now).store }
{
    word_of(station_bytes::receive(state, store, bus, image))
}

// The length of the packet of a slot, and where it begins in the store, or: STATE, STORE, CLOSED, NOPACKET.
#[unsafe(no_mangle)]
pub extern "C" fn siljuvatt_read(state: &[u8], store: &[u8], slot: usize, start: &mut usize) -> u32
    ensures value { result ≡ outcome_word (length_of (read_in state.now store.now slot)) }
    ensures start_after { start.new ≡ start_after (read_in state.now store.now slot) slot start.old }
{
    match station_bytes::read_length(state, store, slot) {
        Ok(n) => {
            *start = Area::SIZE * slot;
            low(n)
        }
        Err(name) => refused(name),
    }
}

// Whether a filter of that code and mask accepts ID.28 to ID.13.
#[unsafe(no_mangle)]
pub extern "C" fn siljuvatt_filter_accepts(code: u16, mask: u16, id: u16) -> bool
    ensures { result ≡ accepts (record { code = code; mask = mask }) id }
{
    Filter { code, mask }.accepts(id)
}

// Whether the pair of filters of a row of Table A.1 accepts ID.28 to ID.13.
#[unsafe(no_mangle)]
pub extern "C" fn siljuvatt_row_accepts(row: &[u8; 8], id: u16) -> bool
    ensures { result ≡ either_accepts (row_pair row.now) id }
{
    Pair::from_row(*row).accepts(id)
}

// Makes the bytes those of a new master and answers 0, or: STATE.
#[unsafe(no_mangle)]
pub extern "C" fn siljuvatt_master_new(state: &mut [u8]) -> u32
    ensures value { result ≡ outcome_word (masters.renew state.old).answer }
    ensures state_after { state.new ≡ (masters.renew state.old).state }
{
    word_of(master_bytes::new(state))
}

// Starts an exchange: the bus to send on, or: STATE, FIELD, BUSY.
#[unsafe(no_mangle)]
pub extern "C" fn siljuvatt_master_start(state: &mut [u8], kind: u8, node: u8) -> u32
    ensures value { result ≡ told_word (masters.starting state.old kind node).answer }
    ensures state_after { state.new ≡ (masters.starting state.old kind node).state }
{
    word_of(master_bytes::start(state, kind, node))
}

// A reply has come in: done, or: STATE, FIELD, IDLE, NOTAWAITED.
#[unsafe(no_mangle)]
pub extern "C" fn siljuvatt_master_reply(state: &mut [u8], bus: u8, node: u8, function: u8) -> u32
    ensures value { result ≡ told_word (masters.replying state.old bus node function).answer }
    ensures state_after { state.new ≡ (masters.replying state.old bus node function).state }
{
    word_of(master_bytes::reply(state, bus, node, function))
}

// No reply came in time: the bus to send on again, or gave up, or: STATE, IDLE.
#[unsafe(no_mangle)]
pub extern "C" fn siljuvatt_master_timeout(state: &mut [u8]) -> u32
    ensures value { result ≡ told_word (masters.timing_out state.old).answer }
    ensures state_after { state.new ≡ (masters.timing_out state.old).state }
{
    word_of(master_bytes::timeout(state))
}

// Makes the bytes those of a watch that begins now and answers 0, or: STATE.
#[unsafe(no_mangle)]
pub extern "C" fn siljuvatt_watch_new(state: &mut [u8], time: u32) -> u32
    ensures value { result ≡ outcome_word (watches.renew state.old time).answer }
    ensures state_after { state.new ≡ (watches.renew state.old time).state }
{
    word_of(watch_bytes::new(state, time))
}

// A bus is heard now: the bus, or: STATE, FIELD.
#[unsafe(no_mangle)]
pub extern "C" fn siljuvatt_watch_heard(state: &mut [u8], bus: u8, time: u32) -> u32
    ensures value { result ≡ outcome_word (watches.hearing state.old bus time).answer }
    ensures state_after { state.new ≡ (watches.hearing state.old bus time).state }
{
    word_of(watch_bytes::heard(state, bus, time))
}

// Which buses are to be reset now, a bit for each, or: STATE.
#[unsafe(no_mangle)]
pub extern "C" fn siljuvatt_watch_check(state: &mut [u8], time: u32) -> u32
    ensures value { result ≡ reset_word (watches.checking state.old time).answer }
    ensures state_after { state.new ≡ (watches.checking state.old time).state }
{
    reset_word(watch_bytes::check(state, time))
}

// The claims of this crate. It does nothing: its contract ties each claim to its proof.
pub fn promised()
    ensures one_word { OneWord }
    ensures small { Small }
    ensures reads_there { ReadsThere }
    ensures library_bounds { LibraryBounds }
{}
