// A station and what is lent to it: opening, closing, receiving at either front, reading, and slots
// and bytes set by hand.
ghost use Rattle.std.specs.Prelude.{◌≡◌, ◌≤◌, length};
ghost use Rattle.station.specs.Open as opening;
ghost use Rattle.station.specs.Receive as receiving;
ghost use Rattle.calls_program.specs.Requests.{byte_at, key_at, slot_named, bytes_from};

use crate::operations::BYTES;
use crate::request::{byte, format_of, key, number, part, rest};
use crate::response::{ANSWER, WITH_SLOTS, fill, put_outcome, put_received, put_slots, put_value};
use copying::copy_in;
use format::Format;
use slot::{Key, Slot, Stream};
use station::{HandedBack, Station, Store};
use stream::{Answer, Progress};

// The front, which receives an image: the station itself, or a table of its slots that is lent to the call.
#[derive(Clone, Copy, Debug, PartialEq, Eq)]
pub enum Front {
    Itself,
    Table,
}

// The station; the bytes, of which the first are lent to its calls as their store, and how many
// are; the front that receives; and how many records a listing in its slots has listed.
#[derive(Clone, Copy)]
pub struct Desk {
    pub station: Station,
    pub bytes: [u8; BYTES],
    pub lent: usize,
    pub front: Front,
    pub count: u64,
}

// Over a lent table of the station's slots.
fn receive_over_table(
    station: Station,
    store: &mut [u8],
    bus: u8,
    image: &[u8],
) -> HandedBack<Answer>
    ensures { receiving.after result store.new ≡ receiving.receive station store.old bus image.now }
{
    let Station { format, slots } = station;
    let lent = table::receive_by_value(format, slots, store, bus, image);
    let slots = lent.table;
    HandedBack {
        station: Station { format, slots },
        answer: lent.answer,
    }
}

impl Front {
    fn receive(
        self,
        station: Station,
        store: &mut [u8],
        bus: u8,
        image: &[u8],
    ) -> HandedBack<Answer>
        ensures { receiving.after result store.new ≡ receiving.receive station store.old bus image.now }
    {
        match self {
            Front::Itself => station.receive(store, bus, image),
            Front::Table => receive_over_table(station, store, bus, image),
        }
    }
}

// A slot by hand: its kind is 0 to 3.
#[tactic(auto, unfolding(crate::specs::Requests::slot_named))]
fn slot_of(kind: u8, h: u16, key: Key) -> Slot
    ensures { result ≡ slot_named kind h key }
{
    let progress = match kind {
        0 => return Slot { occupancy: None },
        1 => Progress::Idle,
        2 => Progress::Collecting(h),
        _ => Progress::Done(h),
    };
    Slot {
        occupancy: Some(Stream { key, progress }),
    }
}

impl Desk {
    ghost use Rattle.calls_program.specs.Desks.{as_done, first_desk, lent_size};
    ghost use Rattle.calls_program.specs.Desks as desks;

    pub fn new() -> Desk
        ensures { result ≡ first_desk }
    {
        Desk {
            station: Station::new(Format::Extended),
            bytes: [0; BYTES],
            lent: Store::SIZE,
            front: Front::Itself,
            count: 0,
        }
    }

    // How many of the bytes are lent: the first of them.
    #[tactic(auto, unfolding(crate::specs::Desks::lent_size))]
    pub fn lent_size(&self) -> usize
        ensures upper_bound { result ≤ length self.now.bytes }
        ensures value { result ≡ lent_size self.now }
    {
        self.lent.min(self.bytes.len())
    }

    // The response to a call that answers with the slots: the answer, which is written already, and
    // the slots.
    fn put_slots(&self, out: &mut [u8]) -> usize
        ensures { as_done self.now result out.new ≡ desks.with_slots self.now out.old }
    {
        put_slots(out, &self.station.slots);
        WITH_SLOTS
    }

    // What opening or closing hands back.
    fn change(&mut self, changed: HandedBack<usize>, out: &mut [u8]) -> usize
        ensures { as_done self.new result out.new ≡ desks.changed (opening.station_after changed) self.old out.old }
    {
        self.station = changed.station;
        put_outcome(out, changed.answer);
        self.put_slots(out)
    }

    pub fn renew(&mut self, args: &[u8], out: &mut [u8]) -> usize
        ensures { as_done self.new result out.new ≡ desks.desk_renewed args.now self.old out.old }
    {
        self.station = Station::new(format_of(byte(args, 0)));
        self.bytes.fill(0);
        self.lent = Store::SIZE;
        self.front = Front::Itself;
        put_value(out, 0);
        self.put_slots(out)
    }

    pub fn open(&mut self, args: &[u8], out: &mut [u8]) -> usize
        ensures { as_done self.new result out.new ≡ desks.changed (opening.opening self.old.station (key_at args.now 0)) self.old out.old }
    {
        let changed = self.station.open(key(args, 0));
        self.change(changed, out)
    }

    pub fn close(&mut self, args: &[u8], out: &mut [u8]) -> usize
        ensures { as_done self.new result out.new ≡ desks.changed (opening.closing self.old.station (byte_at args.now 0)) self.old out.old }
    {
        let changed = self.station.close(usize::from(byte(args, 0)));
        self.change(changed, out)
    }

    pub fn receive(&mut self, args: &[u8], out: &mut [u8]) -> usize
        ensures { as_done self.new result out.new ≡ desks.received (receiving.receive self.old.station (desks.store_of self.old) (byte_at args.now 0) (bytes_from args.now 1)) self.old out.old }
    {
        let Desk { station, front, .. } = *self;
        let n = self.lent_size();
        let received = front.receive(station, &mut self.bytes[..n], byte(args, 0), rest(args, 1));
        self.station = received.station;
        put_received(out, received.answer);
        self.put_slots(out)
    }

    // A slot is put into a state by hand.
    pub fn set_slot(&mut self, args: &[u8], out: &mut [u8]) -> usize
        ensures { as_done self.new result out.new ≡ desks.slot_set args.now self.old out.old }
    {
        let i = usize::from(byte(args, 0) % 16);
        self.station.slots[i] = slot_of(byte(args, 1), number(args, 2) as u16, key(args, 4));
        put_value(out, 0);
        self.put_slots(out)
    }

    pub fn lend(&mut self, args: &[u8], out: &mut [u8]) -> usize
        ensures { as_done self.new result out.new ≡ desks.lending args.now self.old out.old }
    {
        let n = number(args, 0);
        self.lent = n;
        put_value(out, n);
        ANSWER
    }

    #[tactic(auto, unfolding(crate::specs::Requests::front_named))]
    pub fn set_front(&mut self, args: &[u8], out: &mut [u8]) -> usize
        ensures { as_done self.new result out.new ≡ desks.front_set args.now self.old out.old }
    {
        self.front = if byte(args, 0) == 0 {
            Front::Itself
        } else {
            Front::Table
        };
        put_value(out, 0);
        ANSWER
    }

    // Both calls: the length, and the part itself.
    pub fn read(&self, args: &[u8], out: &mut [u8]) -> usize
        ensures { as_done self.now result out.new ≡ desks.read_from args.now self.now out.old }
    {
        let store = &self.bytes[..self.lent_size()];
        let slot = usize::from(byte(args, 0));
        put_outcome(out, self.station.read_length(store, slot));
        let packet = self.station.read(store, slot);
        copy_in(out, ANSWER, packet);
        ANSWER + packet.len()
    }

    // A part of all bytes, lent or not.
    pub fn show(&self, args: &[u8], out: &mut [u8]) -> usize
        ensures { as_done self.now result out.new ≡ desks.bytes_shown args.now self.now out.old }
    {
        let from = number(args, 0);
        let size = number(args, 2);
        copy_in(out, 0, part(&self.bytes, from, from + size));
        size
    }

    pub fn fill(&mut self, args: &[u8], out: &mut [u8]) -> usize
        ensures { as_done self.new result out.new ≡ desks.refilled args.now self.old out.old }
    {
        fill(&mut self.bytes, byte(args, 0), byte(args, 1));
        put_value(out, 0);
        ANSWER
    }
}
