// The sixteen slots of a station: keys, soundness, and which slot is open with a key.
#![tactic(auto)]

ghost use Rattle.std.specs.Prelude.{◌<◌, cond, Some, None, position, ◌≡◌};
ghost use Rattle.slot.specs.Codes.{key_code, slot_code, codes_from, is, clashing};
ghost use Rattle.slot.specs.Slots.{is_closed, has_key};
ghost use Rattle.slot.specs.Sound.{key_in_range, most_held, fits, slot_sound, slots_sound, any, sound, sought};
ghost use Rattle.slot.specs.Bounds.{SlotBounds};

use format::{Extended, Fields, Format, Refusal, Standard};
use stream::Progress;

// What a stream is known by: the bus (0 is A, 1 is B) and all identifier fields. The bus is a number, since any may be
// handed in, and `key_in_range` says which is one.
#[derive(Clone, Copy, Debug, PartialEq, Eq)]
pub struct Key {
    pub bus: u8,
    pub fields: Fields,
}

#[derive(Clone, Copy, Debug, PartialEq, Eq)]
pub struct Stream {
    pub key: Key,
    pub progress: Progress,
}

#[derive(Clone, Copy, Debug, PartialEq, Eq)]
pub struct Slot {
    pub occupancy: Option<Stream>,
}

// Whether the bus is A or B, and the fields are of the format and each in its range.
pub fn key_in_range(format: Format, key: Key) -> bool
    ensures { result ≡ key_in_range format key }
{
    in_range_of(format, &key)
}

// The same of a lent key. Keys and slots are lent from here to sound_codes: handed on by value, each would be
// copied in pieces, and the compiler would put the pieces together again.
#[tactic(auto, unfolding(crate::specs::Sound::key_in_range, format::specs::Tests::all_true))]
fn in_range_of(format: Format, key: &Key) -> bool
    ensures { result ≡ key_in_range format key.now }
{
    key.bus <= 1 && key.fields.format() == format && key.fields.in_range()
}

// The most bytes that are held while collecting. A standard piece of number 255 is an end, so that
// no more than 255 pieces are.
pub fn most_held(format: Format) -> usize
    ensures { result ≡ most_held format }
{
    match format {
        Format::Extended => Extended::PACKET_LIMIT,
        Format::Standard => Standard::PACKET_LIMIT - Standard::PIECE_SIZE,
    }
}

// Whether so many bytes can be held.
#[tactic(auto, unfolding(crate::specs::Sound::fits, format::specs::Tests::all_true))]
fn fits(format: Format, progress: Progress) -> bool
    ensures { result ≡ fits format progress }
{
    match progress {
        Progress::Idle => true,
        Progress::Collecting(h) => {
            let n = usize::from(h);
            let size = format.piece_size();
            n % size == 0 && size <= n && n <= most_held(format)
        }
        Progress::Done(h) => usize::from(h) <= format.packet_limit(),
    }
}

#[tactic(auto, unfolding(crate::specs::Sound::slot_sound, format::specs::Tests::all_true))]
fn slot_sound(format: Format, occupancy: &Option<Stream>) -> bool
    ensures { result ≡ slot_sound format occupancy.now }
{
    occupancy.as_ref().is_none_or(|stream| in_range_of(format, &stream.key)
        && fits(format, stream.progress))
}

// One number for each key in range, made of whole bytes as the fields lie in memory; the function
// and the bus lie above the priority. The arms are no twins: each has its format's own fields.
fn key_code(key: &Key) -> u32
    requires { key_code key.now < 4294967296 }
    ensures { result ≡ key_code key.now }
{
    let bus = u32::from(key.bus);
    match key.fields {
        Fields::Extended {
            priority: p,
            source: s,
            group: g,
            destination: d,
            function: f,
        } => {
            u32::from(p)
                + u32::from(s) * 256
                + u32::from(g) * 65536
                + u32::from(d) * 16777216
                + u32::from(f) * 4
                + bus * 128
        }
        Fields::Standard {
            priority: p,
            address: a,
            side: s,
        } => u32::from(p) + u32::from(a) * 256 + u32::from(s) * 65536 + 16384 + bus * 128,
    }
}

// A closed slot has a number of its own, above every key's.
fn slot_code(occupancy: &Option<Stream>, i: u32) -> u32
    requires { slot_code occupancy.now i < 4294967296 }
    ensures { result ≡ slot_code occupancy.now i }
{
    match occupancy {
        None => 1073741824 + i,
        Some(stream) => key_code(&stream.key),
    }
}

// The codes of slots each of which by itself is sound.
fn sound_codes(format: Format, slots: [Slot; 16]) -> Option<[u32; 16]>
    ensures { result ≡ cond (slots_sound format slots) (Some (codes_from slots 0)) None }
{
    let mut codes = [0; 16];
    for (i, slot) in slots.iter().enumerate() {
        if !slot_sound(format, &slot.occupancy) {
            return None;
        }
        codes[i] = slot_code(&slot.occupancy, i as u32);
    }
    Some(codes)
}

// Whether the code is among those. No branch in the row: by `contains` seek takes a fifth more instructions, and a
// station by value misses its limit of 1,400.
fn repeated(codes: &[u32], code: u32) -> bool
    ensures { result ≡ any (is code) codes.now }
{
    let mut hit = false;
    for &other in codes {
        hit |= other == code;
    }
    hit
}

// Whether two of the codes are equal.
pub fn clash(codes: &[u32]) -> bool
    ensures { result ≡ clashing codes.now }
{
    let mut left = codes;
    while let Some((&code, rest)) = left.split_first() {
        if repeated(rest, code) {
            return true;
        }
        left = rest;
    }
    false
}

// The number of a key in range.
#[tactic(auto, using(crate::proofs::CodeLaws::key_code_fits))]
pub fn key_number(format: Format, key: Key) -> Option<u32>
    ensures { result ≡ cond (key_in_range format key) (Some (key_code key)) None }
{
    key_in_range(format, key).then(|| key_code(&key))
}

fn find_code(codes: &[u32], code: u32) -> Option<usize>
    ensures { result ≡ position (is code) codes.now }
{
    codes.iter().position(|&other| other == code)
}

// Where a key is among the codes of sound slots of the format. In sound slots no key out of range is open.
pub fn find_key(format: Format, codes: &[u32], key: Key) -> Option<usize>
    ensures { result ≡ cond (key_in_range format key) (position (is (key_code key)) codes.now) None }
{
    find_code(codes, key_number(format, key)?)
}

// The first closed slot.
pub fn first_closed(slots: [Slot; 16]) -> Option<usize>
    ensures { result ≡ position is_closed slots }
{
    slots.iter().position(|slot| slot.occupancy.is_none())
}

// The first slot that is open with the key. The slots need not be sound. Slots and key are lent: by value the slots are
// copied, and each slot's key is put together before it is compared, which takes twice the instructions.
#[tactic(auto, unfolding(crate::specs::Slots::same_key, crate::specs::Slots::same_fields, format::specs::Tests::all_true))]
pub fn find_in(slots: &[Slot; 16], key: &Key) -> Option<usize>
    ensures { result ≡ position (has_key key.now) slots.now }
{
    slots.iter().position(|slot| slot.occupancy.as_ref().is_some_and(|s| s.key == *key))
}

// The same of slots by value.
pub fn find(slots: [Slot; 16], key: Key) -> Option<usize>
    ensures { result ≡ position (has_key key) slots }
{
    find_in(&slots, &key)
}

// Where the key is open, or STATE. Soundness is found out on the way, from the same codes.
pub fn seek(format: Format, slots: [Slot; 16], key: Key) -> Result<Option<usize>, Refusal>
    ensures { result ≡ sought format slots key }
{
    let codes = sound_codes(format, slots).ok_or(Refusal::State)?;
    if clash(&codes) {
        return Err(Refusal::State);
    }
    Ok(find_key(format, &codes, key))
}

// Whether each slot is sound and open keys differ. Told by seek, for any key: so sound_codes is called in one
// place, and the compiler keeps no copy of the slots for it.
pub fn sound(format: Format, slots: [Slot; 16]) -> bool
    ensures { result ≡ sound format slots }
{
    let fields = Fields::Standard {
        priority: 0,
        address: 0,
        side: 0,
    };
    seek(format, slots, Key { bus: 0, fields }).is_ok()
}

// The claims of this crate. It does nothing: its contract ties each claim to its proof.
pub fn promised()
    ensures slot_bounds { SlotBounds }
{}
