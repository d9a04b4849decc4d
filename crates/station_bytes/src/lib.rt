// A station whose state is in lent bytes: sixteen records of eight bytes, the format, the layout's number. A
// record is two numbers of 32 bits: the key's and the progress's.
#![tactic(auto)]

ghost use Rattle.std.specs.Prelude.{◌≡◌, true, false, eqb, ◌+◌, ◌*◌, ◌-◌, ◌≤◌, ◌<◌, length, position, IfSome, MatchOption, MatchResult};
ghost use Rattle.std.specs.Bool.{then_some};
ghost use Rattle.frame.specs.Claims.{Bytes};
ghost use Rattle.slot.specs.Codes.{codes_from};
ghost use Rattle.copying.specs.Copy.{copied};
ghost use Rattle.format.specs.Refusals.{meaning};
ghost use Rattle.slot.specs.Slots.{is_closed, has_key};
ghost use Rattle.station.specs.Read.{length_of};
ghost use Rattle.station.specs.Open.{is_open};
ghost use Rattle.words.specs.Words.{word_bytes, word_at};
ghost use Rattle.station_bytes.specs.States.{format_in, format_at, progress_number, progress_from, slots_from, state_bytes, station_in};
ghost use Rattle.station_bytes.specs.Calls.{receive_in, renewed, open_in, close_in, read_in, bytes_after, state_after};
ghost use Rattle.station_bytes.specs.Parts.{key_fits, progress_fits, record_good, record_code, records_good, record_codes, is_station, NoStation, OpenAt};
ghost use Rattle.station_bytes.specs.Claims as claims;
ghost use Rattle.station_bytes.specs.Bounds.{StateBounds};

use copying::copy_in;
use format::{Format, Refusal};
use frame::{Head, judge};
use slot::{Key, clash, find_key, key_number, most_held};
use station::{Store, step_area};
use stream::{Answer, Progress};
use words::{word_bytes, word_of};

// The bytes of a state, and the number of their layout, which is the last of them.
#[derive(Clone, Copy, Debug, PartialEq, Eq)]
pub struct State;

impl State {
    pub const SIZE: usize = 130;

    pub const LAYOUT: u8 = 1;
}

// The number in the four bytes from place at on.
fn word_at(state: &[u8; State::SIZE], at: usize) -> u32
    requires { at + 4 ≤ 130 }
    ensures { result ≡ word_at state.now at }
{
    word_of(state[at], state[at + 1], state[at + 2], state[at + 3])
}

// Writes a number to the four bytes from place at on.
fn put_word(state: &mut [u8], at: usize, number: u32)
    ensures { state.new ≡ copied state.old at (word_bytes number) }
{
    copy_in(state, at, &word_bytes(number));
}

// The format of a number: 0 is extended, and any other stands for standard.
pub fn format_of(number: u8) -> Format
    ensures { result ≡ format_in number }
{
    Format::try_from(number).unwrap_or(Format::Standard)
}

// Whether the number is that of a progress that a sound stream of the format has: a call for each format, so that the
// compiler knows what it divides by, and makes vectors of the loop over the records.
fn progress_fits(format: Format, number: u32) -> bool
    ensures { result ≡ progress_fits format number }
{
    match format {
        Format::Extended => is_progress(Format::Extended, number),
        Format::Standard => is_progress(Format::Standard, number),
    }
}

fn is_progress(format: Format, number: u32) -> bool
    ensures { result ≡ progress_fits format number }
{
    let kind = number / 65536;
    let h = (number % 65536) as usize;
    let size = format.piece_size();
    ((kind == 1) & (h == 0))
        | ((kind == 2) & (h % size == 0) & (size <= h) & (h <= most_held(format)))
        | ((kind == 3) & (h <= format.packet_limit()))
}

// Whether the number is that of a key of the format in range.
fn key_fits(format: Format, number: u32) -> bool
    ensures { result ≡ key_fits format number }
{
    match format {
        Format::Extended => {
            (number / 256 % 256 <= 63) & (number / 65536 % 256 <= 3) & (number / 16777216 <= 63)
        }
        Format::Standard => {
            (number / 4 % 32 == 0) & (number / 16384 % 4 == 1) & (number / 65536 <= 1)
        }
    }
}

// No From here and below: neither the number nor Progress is a type of this crate.
fn progress_of(number: u32) -> Progress
    ensures { result ≡ progress_from number }
{
    let h = (number % 65536) as u16;
    match number / 65536 {
        1 => Progress::Idle,
        2 => Progress::Collecting(h),
        _ => Progress::Done(h),
    }
}

fn progress_number(progress: Progress) -> u32
    ensures { result ≡ progress_number progress }
{
    match progress {
        Progress::Idle => 65536,
        Progress::Collecting(h) => 131072 + u32::from(h),
        Progress::Done(h) => 196608 + u32::from(h),
    }
}

// The two numbers of a slot. Both are 0 if it is closed. What takes a slot's number asks for one below 16: a type for
// that would be made anew in each turn of the loops over the records, which say it already.
#[derive(Clone, Copy)]
struct Record {
    key: u32,
    progress: u32,
}

impl Record {
    const CLOSED: Record = Record {
        key: 0,
        progress: 0,
    };

    fn is_closed(self) -> bool
        ensures { result ≡ eqb self.progress 0 }
    {
        self.progress == 0
    }

    // Whether the record by itself is that of a sound slot.
    fn is_good(self, format: Format) -> bool
        ensures { result ≡ record_good format self.key self.progress }
    {
        (self.is_closed() & (self.key == 0))
            | (key_fits(format, self.key) & progress_fits(format, self.progress))
    }

    // What stands for slot i where codes are compared: its key's number, or one of its own if it is closed.
    fn code(self, i: usize) -> u32
        requires { i < 16 }
        ensures { result ≡ record_code i self.key self.progress }
    {
        if self.is_closed() {
            return 1073741824 + i as u32;
        }
        self.key
    }

    // Writes it as that of slot i.
    fn write(self, state: &mut [u8], i: usize)
        requires { i < 16 }
        ensures { state.new ≡ copied (copied state.old (8 * i) (word_bytes self.key)) (8 * i + 4) (word_bytes self.progress) }
    {
        put_word(state, 8 * i, self.key);
        put_word(state, 8 * i + 4, self.progress);
    }
}

fn record_at(state: &[u8; State::SIZE], i: usize) -> Record
    requires { i < 16 }
    ensures { result ≡ record { key = word_at state.now (8 * i); progress = word_at state.now (8 * i + 4) } }
{
    Record {
        key: word_at(state, 8 * i),
        progress: word_at(state, 8 * i + 4),
    }
}

// The codes of the records, if each by itself is that of a sound slot. No branch in the loop.
fn codes_of(format: Format, state: &[u8; State::SIZE]) -> Option<[u32; 16]>
    ensures { result ≡ then_some (records_good format state.now 0 16) (record_codes state.now 0 16) }
{
    let mut good = true;
    let mut codes = [0u32; 16];
    for i in 0..16 {
        let record = record_at(state, i);
        good &= record.is_good(format);
        codes[i] = record.code(i);
    }
    good.then_some(codes)
}

// Bytes that are a sound station's, its format, and the codes of its slots.
#[derive(Clone, Copy)]
struct SoundState<'a> {
    state: &'a [u8; State::SIZE],
    format: Format,
    codes: [u32; 16],
    ghost bytes: { Bytes state.now },
    ghost is_station: { is_station state.now ≡ true },
    ghost same: { state_bytes (station_in state.now) ≡ state.now },
    ghost its_format: { format ≡ format_at state.now },
    ghost its_codes: { codes ≡ codes_from (station_in state.now).slots 0 },
}

impl<'a> SoundState<'a> {
    fn read(state: &'a [u8]) -> Option<SoundState<'a>>
        ensures { MatchOption result (NoStation state.now) (λ sound. sound.state.now ≡ state.now) }
    {
        let state: &[u8; State::SIZE] = state.try_into().ok()?;
        let format = Format::try_from(state[128]).ok()?;
        let layout = state[129];
        if layout != State::LAYOUT {
            return None;
        }
        let codes = codes_of(format, state)?;
        if clash(&codes) {
            return None;
        }
        Some(SoundState {
            state,
            format,
            codes,
        })
    }

    // The record of an open slot, or a refusal: CLOSED.
    fn open_record(&self, i: usize) -> Result<Record, Refusal>
        ensures { MatchResult result (λ r. OpenAt (station_in self.now.state.now).slots i r.progress) (λ name. (name ≡ Refusal.Closed) × (is_open (station_in self.now.state.now).slots i ≡ false)) }
    {
        if i >= 16 {
            return Err(Refusal::Closed);
        }
        let record = record_at(self.state, i);
        if record.is_closed() {
            return Err(Refusal::Closed);
        }
        Ok(record)
    }

    // Refuses with STATE.
    fn of(state: &'a [u8]) -> Result<SoundState<'a>, Refusal>
        ensures { MatchResult result (λ sound. sound.state.now ≡ state.now) (λ name. (name ≡ Refusal.State) × NoStation state.now) }
    {
        SoundState::read(state).ok_or(Refusal::State)
    }

    // The slot that is open with the key.
    fn find(&self, key: Key) -> Option<usize>
        ensures found { result ≡ position (has_key key) (station_in self.now.state.now).slots }
        ensures within { IfSome result (λ i. i < 16) }
    {
        find_key(self.format, &self.codes, key)
    }

    // The first closed slot.
    fn first_closed(&self) -> Option<usize>
        ensures found { result ≡ position is_closed (station_in self.now.state.now).slots }
        ensures within { IfSome result (λ i. i < 16) }
    {
        (0..16).find(|&i| record_at(self.state, i).is_closed())
    }
}

// Receives an image on a bus, as Station::receive does, with the same answers.
pub fn receive(state: &mut [u8], store: &mut [u8], bus: u8, image: &[u8]) -> Result<Answer, Refusal>
    ensures { bytes_after result state.new store.new ≡ receive_in state.old store.old bus image.now }
{
    let sound = SoundState::of(state)?;
    if store.len() != Store::SIZE {
        return Err(Refusal::Store);
    }
    if bus > 1 {
        return Err(Refusal::Field);
    }
    let format = sound.format;
    let head = judge(format, image)?;
    let fields = head.fields;
    let Some(i) = sound.find(Key { bus, fields }) else {
        return Ok(Answer::Filtered);
    };
    let held = record_at(sound.state, i).progress;
    let progress = progress_of(held);
    let next = step_area(format, progress, i, head, &image[head.start..], store)?;
    // A progress that stays stores nothing.
    let number = progress_number(next.progress);
    if number != held {
        put_word(state, 8 * i + 4, number);
    }
    next.answer
}

// Makes the bytes those of a new station of a format, with every slot closed, and answers 0, or refuses: STATE.
pub fn new(state: &mut [u8], format: Format) -> Result<usize, Refusal>
    ensures { state_after result state.new ≡ renewed state.old format }
{
    if state.len() != State::SIZE {
        return Err(Refusal::State);
    }
    state.fill(0);
    state[128] = format as u8;
    state[129] = State::LAYOUT;
    Ok(0)
}

// Opens a key in the lowest closed slot and answers that slot's number, or refuses: STATE, FIELD, TAKEN, FULL.
pub fn open(state: &mut [u8], key: Key) -> Result<usize, Refusal>
    ensures { state_after result state.new ≡ open_in state.old key }
{
    let sound = SoundState::of(state)?;
    let number = key_number(sound.format, key).ok_or(Refusal::Field)?;
    if sound.find(key).is_some() {
        return Err(Refusal::Taken);
    }
    let i = sound.first_closed().ok_or(Refusal::Full)?;
    let opened = Record {
        key: number,
        progress: progress_number(Progress::Idle),
    };
    opened.write(state, i);
    Ok(i)
}

// Closes a slot and answers its number, or refuses: STATE, CLOSED.
pub fn close(state: &mut [u8], i: usize) -> Result<usize, Refusal>
    ensures { state_after result state.new ≡ close_in state.old i }
{
    SoundState::of(state)?.open_record(i)?;
    Record::CLOSED.write(state, i);
    Ok(i)
}

// The length of the packet of a slot that is done, or a refusal: STATE, STORE, CLOSED, NOPACKET. The packet
// is the head of the slot's area.
pub fn read_length(state: &[u8], store: &[u8], i: usize) -> Result<usize, Refusal>
    ensures { meaning result ≡ length_of (read_in state.now store.now i) }
{
    let sound = SoundState::of(state)?;
    if store.len() != Store::SIZE {
        return Err(Refusal::Store);
    }
    match progress_of(sound.open_record(i)?.progress) {
        Progress::Idle | Progress::Collecting(_) => Err(Refusal::NoPacket),
        Progress::Done(h) => Ok(usize::from(h)),
    }
}

// The claims of this crate. It does nothing: its contract ties each claim to its proof.
pub fn promised()
    ensures read_back { claims.ReadBack }
    ensures written_back { claims.WrittenBack }
    ensures not_written { claims.NotWritten }
    ensures as_first { claims.AsFirst }
    ensures stay_sound { claims.StaySound }
    ensures refused_keeps { claims.RefusedKeeps }
    ensures as_run { claims.AsRun }
    ensures demand3_on_bytes { claims.Demand3OnBytes }
    ensures round_trip_on_bytes { claims.RoundTripOnBytes }
    ensures read_at_end { claims.ReadAtEnd }
    ensures state_bounds { StateBounds }
{}
