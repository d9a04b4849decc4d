// A listing: the records of a part of a trace, received by a station that opens each new key, and
// their lines.
#![tactic(auto)]

ghost use Rattle.std.specs.Prelude.{◌≡◌, ◌+◌, ◌≤◌, true, length};
ghost use Rattle.format.specs.declared.Format.TheVariants.{Extended};
ghost use Rattle.format.specs.Refusals.{value};
ghost use Rattle.format.specs.Refusals.{meaning as outcome·meaning};
ghost use Rattle.format.specs.Outputs.{answer};
ghost use Rattle.format.specs.Outputs.{output_after as over·after};
ghost use Rattle.slot.specs.Sound.{key_in_range};
ghost use Rattle.station.specs.Stations.{sound_station};
ghost use Rattle.lister.specs.Parts.{Heads, Opens, Tells, Adds, handed_on};
ghost use Rattle.trace.specs.Records.{record_at};
ghost use Rattle.trace.specs.Lines.{line_text, line_in_range};
ghost use Rattle.lister.specs.Listing.{new_listing, heard, listed, has_room, begun, handed_back, listing, listing_after, stops_at, last_lines, ending};
ghost use Rattle.lister.specs.Claims.{ListingStaysSound, InParts, Printed, OneWhy};
ghost use Rattle.lister.specs.Examples.{ListingExamples, ListingBounds};

use format::{Format, Refusal};
use frame::{Head, judge};
use slot::{Key, Slot};
use station::{Station, Store, open_slot};
use stream::{Answer, Progress};
use trace::{Entry, LINE_ROOM, Line};

// Where a listing stands between two parts of its trace: the slots, and how many records it has
// listed.
#[derive(Clone, Copy, Debug, PartialEq, Eq)]
pub struct Listing {
    pub slots: [Slot; 16],
    pub count: u64,
}

// Why a call went no further.
#[derive(Clone, Copy, Debug, PartialEq, Eq)]
pub enum Why {
    // What is left of the input is no whole record.
    Input,
    // The output might not have room for the next line.
    Room,
    // The next record is damaged.
    Damaged,
}

// What a call hands back: the next listing, why it stopped, how many bytes of the input it took and
// how many of the output it wrote.
#[derive(Clone, Copy, Debug, PartialEq, Eq)]
pub struct Listed {
    pub listing: Listing,
    pub why: Result<Why, Refusal>,
    pub used: usize,
    pub written: usize,
}

// A sound station of the extended format.
#[derive(Clone, Copy)]
struct Receiver {
    station: Station,
    ghost is_extended: { station.format ≡ Extended },
    ghost is_sound: { sound_station station ≡ true },
}

impl Receiver {
    // The slot that is open with a key in range, which is opened first if it is new and a slot is closed.
    fn opened(&mut self, key: Key) -> Option<usize>
        requires { key_in_range Extended key ≡ true }
        ensures { Opens self.old.station key result self.new.station }
    {
        let found = slot::find_in(&self.station.slots, &key);
        if found.is_some() {
            return found;
        }
        let lowest = slot::first_closed(self.station.slots)?;
        self.station.slots[lowest] = open_slot(key, Progress::Idle);
        Some(lowest)
    }

    // A frame is received, its key opened before if it is new and a slot is closed.
    fn hear(
        &mut self,
        store: &mut [u8],
        bus: u8,
        head: Head,
        image: &[u8],
    ) -> Result<Answer, Refusal>
        requires { (length store.old ≡ 32768) × (bus ≤ 1) × Heads head image.now }
        ensures { handed_on result self.new.station store.new ≡ heard self.old.station store.old bus image.now }
    {
        let key = Key {
            bus,
            fields: head.fields,
        };
        let Some(at) = self.opened(key) else {
            return Ok(Answer::Filtered);
        };
        let station = &self.station;
        let turn = station.step_at(at, key, head, &image[head.start..], store);
        if let Some(change) = turn.change {
            self.station.slots[change.at] = change.slot;
        }
        turn.answer
    }

    // A record of that ordinal is received, and its line.
    fn tell(&mut self, store: &mut [u8], ordinal: u64, bus: u8, image: &[u8]) -> Line
        requires { (length store.old ≡ 32768) × (bus ≤ 1) }
        ensures { Tells self.old.station store.old ordinal bus image.now result self.new.station store.new }
    {
        match judge(Format::Extended, image) {
            Err(name) => Line::Refused { ordinal, bus, name },
            Ok(head) => {
                let answer = self.hear(store, bus, head, image);
                Line::Frame {
                    ordinal,
                    bus,
                    fields: head.fields,
                    flag: head.flag,
                    number: head.number,
                    count: (image.len() - head.start) as u8,
                    answer,
                }
            }
        }
    }
}

// Writes a line that has room at a place of the output, and answers where it ends.
fn put_line(line: Line, output: &mut [u8], at: usize) -> usize
    requires { (line_in_range line ≡ true) × (at + 96 ≤ length output.old) }
    ensures { Adds (line_text line) output.old at result output.new }
{
    match trace::write_line(line, &mut output[at..]) {
        Ok(n) => at + n,
        Err(_) => at,
    }
}

// Whether the listing stops at what is left of the input: a damaged record, or one that the input
// ends inside.
fn stops_at(rest: &[u8]) -> bool
    ensures { result ≡ stops_at (record_at rest.now) }
{
    matches!(trace::read_record(rest), Entry::Damaged | Entry::Cut)
}

// Lists what stands in the input, by a sound station and with a full-size store.
fn list_all(
    mut receiver: Receiver,
    mut count: u64,
    store: &mut [u8],
    input: &[u8],
    output: &mut [u8],
) -> Listed
    requires { length store.old ≡ 32768 }
    ensures { listing_after result store.new output.new ≡ handed_back (record { slots = receiver.station.slots; count = count }) store.old input.now output.old (value (listed (length input.now) (has_room output.old) (begun (record { slots = receiver.station.slots; count = count }) store.old input.now))) }
{
    // Counted here and not by an iterator over the records: how far it came is what is handed back.
    let mut used = 0;
    let mut written = 0;
    let why = loop {
        match trace::read_record(&input[used..]) {
            Entry::End | Entry::Cut => break Why::Input,
            Entry::Damaged => break Why::Damaged,
            Entry::Record { bus, size } => {
                if output.len() - written < LINE_ROOM {
                    break Why::Room;
                }
                count = count.wrapping_add(1);
                let line = receiver.tell(store, count, bus, &input[used + 4..used + size]);
                written = put_line(line, output, written);
                used += size;
            }
        }
    };
    let slots = receiver.station.slots;
    Listed {
        listing: Listing { slots, count },
        why: Ok(why),
        used,
        written,
    }
}

impl Listing {
    // A listing at its beginning: every slot closed, no record.
    pub fn new() -> Listing
        ensures { result ≡ new_listing }
    {
        let closed = Slot { occupancy: None };
        Listing {
            slots: [closed; 16],
            count: 0,
        }
    }

    // What a refused call hands back.
    fn refused(self, name: Refusal) -> Listed
        ensures { result ≡ record { listing = self; why = Err name; used = 0; written = 0 } }
    {
        Listed {
            listing: self,
            why: Err(name),
            used: 0,
            written: 0,
        }
    }

    // Lists the records at the head of the input, over the head of the output, until it stops for
    // one of the reasons in Why. Refuses with STATE or STORE, and then changes nothing.
    pub fn list(self, store: &mut [u8], input: &[u8], output: &mut [u8]) -> Listed
        ensures { listing_after result store.new output.new ≡ listing self store.old input.now output.old }
    {
        if !slot::sound(Format::Extended, self.slots) {
            return self.refused(Refusal::State);
        }
        if store.len() != Store::SIZE {
            return self.refused(Refusal::Store);
        }
        let slots = self.slots;
        let station = Station {
            format: Format::Extended,
            slots,
        };
        list_all(Receiver { station }, self.count, store, input, output)
    }

    // Puts what follows the lines of the records at the text's beginning, and answers where it ends.
    fn put_end(self, rest: &[u8], text: &mut [u8; 192]) -> usize
        ensures { Adds (last_lines self rest.now) text.old 0 result text.new }
    {
        let count = self.count;
        if !stops_at(rest) {
            return put_line(Line::Records { count }, text, 0);
        }
        let ordinal = count.wrapping_add(1);
        let to = put_line(Line::Stopped { ordinal }, text, 0);
        put_line(Line::Records { count }, text, to)
    }

    // Ends the listing where no more comes than what is left of the input: writes what follows the
    // lines of the records over the head of the output, and answers its length. That is the line of
    // a damaged record, if what is left begins with one or is the beginning of a record, and the
    // count. Whole records that are left are not listed and don't stop the listing: list is the
    // call for them. Refuses with ROOM, and then writes nothing.
    pub fn end(self, rest: &[u8], output: &mut [u8]) -> Result<usize, Refusal>
        ensures result_value { outcome·meaning result ≡ answer (ending self rest.now (length output.old)) }
        ensures output_after { output.new ≡ over·after (ending self rest.now (length output.old)) output.old }
    {
        let mut text = [0u8; 192];
        let n = self.put_end(rest, &mut text);
        if copying::copy_in(output, 0, &text[..n]) {
            return Ok(n);
        }
        Err(Refusal::Room)
    }
}

// The claims of this crate. It does nothing: its contract ties each claim to its proof.
pub fn promised()
    ensures listing_stays_sound { ListingStaysSound }
    ensures in_parts { InParts }
    ensures printed { Printed }
    ensures one_why { OneWhy }
    ensures listing_examples { ListingExamples }
    ensures listing_bounds { ListingBounds }
{}
