// A station: sixteen slots of one format; receiving, opening, closing and reading.
#![tactic(auto)]

ghost use Rattle.std.specs.Prelude.{◌≡◌, ◌<◌, IfOk, IfErr};
ghost use Rattle.format.specs.Refusals.{meaning};
ghost use Rattle.slot.specs.Slots.{open_slot, slot_at};
ghost use Rattle.station.specs.Stations.{new_station};
ghost use Rattle.station.specs.Receive.{progress_in, receive, concerned, after, named, after_turn};
ghost use Rattle.station.specs.Receive.{framed, went, area_step, stepping, slot_of, turned};
ghost use Rattle.station.specs.Open as handing;
ghost use Rattle.station.specs.Read.{reading, length_of, part_of, place_of};
ghost use Rattle.station.specs.Parts.{LetIn};
ghost use Rattle.station.specs.Demands as demands;
ghost use Rattle.station.specs.Bounds.{StationBounds};

use format::{Fields, Format, Refusal};
use frame::{Head, judge};
use slot::{Key, Slot, Stream, first_closed, key_in_range, seek, sound};
use stream::{Answer, Area, Progress, Stepped, step};

mod turn;

pub use turn::{Change, Turn};

#[derive(Clone, Copy, Debug, PartialEq, Eq)]
pub struct Station {
    pub format: Format,
    pub slots: [Slot; 16],
}

// The bytes lent to a station: an area for each slot.
#[derive(Clone, Copy, Debug, PartialEq, Eq)]
pub struct Store;

impl Store {
    pub const SIZE: usize = 32768;
}

// What a call hands back: the next station, and the answer or a refusal.
#[derive(Clone, Copy, Debug, PartialEq, Eq)]
pub struct HandedBack<T> {
    pub station: Station,
    pub answer: Result<T, Refusal>,
}

const CLOSED: Slot = Slot { occupancy: None };

// The progress of an open slot; Idle for a closed one, which has none.
pub fn progress_in(occupancy: Option<Stream>) -> Progress
    ensures { result ≡ progress_in occupancy }
{
    occupancy.map_or(Progress::Idle, |stream| stream.progress)
}

// A slot that is open with a key, and how far its stream is.
pub fn open_slot(key: Key, progress: Progress) -> Slot
    ensures { result ≡ open_slot key progress }
{
    Slot {
        occupancy: Some(Stream { key, progress }),
    }
}

// A stream steps on the bytes of a frame with that head: the area of slot i is lent on. Refuses, and changes nothing:
// CLOSED for a slot number over 15, STORE, SURPLUS for more than 8 bytes.
#[tactic(auto, unfolding(format::specs::Refusals::guarded))]
pub fn step_area(
    format: Format,
    progress: Progress,
    i: usize,
    head: Head,
    bytes: &[u8],
    store: &mut [u8],
) -> Result<Stepped, Refusal>
    ensures stepped { went result store.new ≡ area_step format progress store.old i (framed head bytes.now) }
    ensures kept { IfErr result (λ _. store.new ≡ store.old) }
{
    if i >= 16 {
        return Err(Refusal::Closed);
    }
    if store.len() != Store::SIZE {
        return Err(Refusal::Store);
    }
    if bytes.len() > 8 {
        return Err(Refusal::Surplus);
    }
    let at = Area::SIZE * i;
    let area = &mut store[at..at + Area::SIZE];
    Ok(step(format, progress, head.flag, head.number, bytes, area))
}

// A turn that changes no slot.
fn unchanged(answer: Result<Answer, Refusal>) -> Turn
    ensures { result ≡ record { change = None; answer = answer } }
{
    Turn {
        change: None,
        answer,
    }
}

impl Station {
    // A station of a format, with every slot closed.
    pub fn new(format: Format) -> Station
        ensures { result ≡ new_station format }
    {
        let slots = [CLOSED; 16];
        Station { format, slots }
    }

    // The head of an image and where its key is open; or STATE, STORE, FIELD, then the image's own refusal.
    // An image that is refused is given some key, so that one search tells in any case whether the slots are sound.
    #[tactic(auto, unfolding(format::specs::Refusals::checked_then))]
    fn let_in(&self, store: &[u8], bus: u8, image: &[u8]) -> Result<(Head, Option<usize>), Refusal>
        ensures { LetIn self.now store.now bus image.now result }
    {
        let judged = judge(self.format, image);
        let none = Fields::Standard {
            priority: 0,
            address: 0,
            side: 0,
        };
        let fields = judged.map_or(none, |head| head.fields);
        let place = seek(self.format, self.slots, Key { bus, fields })?;
        if store.len() != Store::SIZE {
            return Err(Refusal::Store);
        }
        if bus > 1 {
            return Err(Refusal::Field);
        }
        Ok((judged?, place))
    }

    // The stream of a slot, closed or open, steps on the bytes of a frame with that head, and the slot becomes open with
    // the key. Where step_area refuses nothing changes.
    pub fn step_at(&self, at: usize, key: Key, head: Head, bytes: &[u8], store: &mut [u8]) -> Turn
        ensures at { named result.change ≡ slot_of (stepping store.old at bytes.now) }
        ensures stepped { after_turn self.now result store.new ≡ turned self.now store.old at key (framed head bytes.now) }
    {
        let progress = progress_in(self.stream_at(at));
        match step_area(self.format, progress, at, head, bytes, store) {
            Err(refusal) => unchanged(Err(refusal)),
            Ok(next) => {
                let slot = open_slot(key, next.progress);
                Turn {
                    change: Some(Change { at, slot }),
                    answer: next.answer,
                }
            }
        }
    }

    // Receives an image on a bus, over the lent store: the work of every front, which has only to store what changes.
    pub fn take_turn(&self, store: &mut [u8], bus: u8, image: &[u8]) -> Turn
        ensures at { named result.change ≡ concerned self.now store.old bus image.now }
        ensures received { after_turn self.now result store.new ≡ receive self.now store.old bus image.now }
    {
        match self.let_in(store, bus, image) {
            Err(name) => unchanged(Err(name)),
            Ok((_, None)) => unchanged(Ok(Answer::Filtered)),
            Ok((head, Some(at))) => {
                let key = Key {
                    bus,
                    fields: head.fields,
                };
                self.step_at(at, key, head, &image[head.start..], store)
            }
        }
    }

    // Receives an image on a bus; the store is lent. Answers packet and its length, kept, filtered
    // or a refusal: STATE, STORE, FIELD, LENGTH, FORM, REMOTE, COUNT, SURPLUS, PIECE, ORPHAN, STEP,
    // LONG.
    pub fn receive(mut self, store: &mut [u8], bus: u8, image: &[u8]) -> HandedBack<Answer>
        ensures { after result store.new ≡ receive self store.old bus image.now }
    {
        let turn = self.take_turn(store, bus, image);
        if let Some(Change { at, slot }) = turn.change {
            self.slots[at] = slot;
        }
        HandedBack {
            station: self,
            answer: turn.answer,
        }
    }

    // What opening and closing hand back: the slot becomes that, or the station stays as it is.
    fn changed(mut self, at: Result<usize, Refusal>, slot: Slot) -> HandedBack<usize>
        requires { IfOk at (λ i. i < 16) }
        ensures { handing.station_after result ≡ handing.changed_at self slot (meaning at) }
    {
        if let Ok(i) = at {
            self.slots[i] = slot;
        }
        HandedBack {
            station: self,
            answer: at,
        }
    }

    // The stream of an open slot.
    fn stream_at(&self, i: usize) -> Option<Stream>
        ensures { result ≡ (slot_at self.now.slots i).occupancy }
    {
        self.slots.get(i).and_then(|slot| slot.occupancy)
    }

    // The lowest closed slot, for a key that can be opened; or STATE, FIELD, TAKEN, FULL.
    #[tactic(auto, unfolding(format::specs::Refusals::guarded))]
    fn vacancy(&self, key: Key) -> Result<usize, Refusal>
        ensures { meaning result ≡ handing.vacancy self.now key }
    {
        let place = seek(self.format, self.slots, key)?;
        if !key_in_range(self.format, key) {
            return Err(Refusal::Field);
        }
        if place.is_some() {
            return Err(Refusal::Taken);
        }
        first_closed(self.slots).ok_or(Refusal::Full)
    }

    // Opens a key in the lowest closed slot and answers that slot's number, or refuses: STATE,
    // FIELD, TAKEN, FULL.
    pub fn open(self, key: Key) -> HandedBack<usize>
        ensures { handing.station_after result ≡ handing.opening self key }
    {
        self.changed(self.vacancy(key), open_slot(key, Progress::Idle))
    }

    // The number of a slot that is open; or STATE, CLOSED.
    #[tactic(auto, unfolding(format::specs::Refusals::guarded))]
    fn occupied(&self, i: usize) -> Result<usize, Refusal>
        ensures { meaning result ≡ handing.occupied self.now i }
    {
        if !sound(self.format, self.slots) {
            return Err(Refusal::State);
        }
        self.stream_at(i).ok_or(Refusal::Closed)?;
        Ok(i)
    }

    // Closes a slot and answers its number, or refuses: STATE, CLOSED.
    pub fn close(self, i: usize) -> HandedBack<usize>
        ensures { handing.station_after result ≡ handing.closing self i }
    {
        self.changed(self.occupied(i), CLOSED)
    }

    // The length of the packet of a slot that is done, or a refusal: STATE, STORE, CLOSED,
    // NOPACKET.
    #[tactic(auto, unfolding(format::specs::Refusals::guarded, crate::specs::Read::reading))]
    pub fn read_length(self, store: &[u8], i: usize) -> Result<usize, Refusal>
        ensures { meaning result ≡ length_of (reading self store.now i) }
    {
        if !sound(self.format, self.slots) {
            return Err(Refusal::State);
        }
        let lent = store.len();
        if lent != Store::SIZE {
            return Err(Refusal::Store);
        }
        let Some(stream) = self.stream_at(i) else {
            return Err(Refusal::Closed);
        };
        match stream.progress {
            Progress::Done(h) => Ok(usize::from(h)),
            _ => Err(Refusal::NoPacket),
        }
    }

    // The packet of a slot that is done: that part of the store itself, the head of the slot's
    // area. Empty where read_length refuses.
    pub fn read(self, store: &[u8], i: usize) -> &[u8]
        ensures result_value { result.now ≡ part_of (reading self store.now i) }
        ensures ref_ptr_value { result.ref_ptr ≡ (store.entry.ref_ptr.0, place_of (reading self store.now i) store.entry.ref_ptr.1 i) }
    {
        match self.read_length(store, i) {
            Err(_) => &store[..0],
            Ok(h) => {
                let from = Area::SIZE * i;
                &store[from..from + h]
            }
        }
    }
}

// The claims of this crate. It does nothing: its contract ties each claim to its proof.
pub fn promised()
    ensures demand3 { demands.Demand3 }
    ensures as_run { demands.AsRun }
    ensures demand3_on_calls { demands.Demand3OnCalls }
    ensures round_trip { demands.RoundTrip }
    ensures round_trip_on_calls { demands.RoundTripOnCalls }
    ensures refused_keeps { demands.RefusedKeeps }
    ensures stays_sound { demands.StaysSound }
    ensures never_long { demands.NeverLong }
    ensures can_be_met { demands.CanBeMet }
    ensures station_bounds { StationBounds }
{}
