// The second front: receiving over a lent table of the sixteen stream records, the slots of a
// station. Nothing else is stored between calls; the format is handed in.
#![tactic(auto)]

ghost use Rattle.std.specs.Prelude.{◌≡◌};
ghost use Rattle.stream.specs.Answers.{meaning};
ghost use Rattle.station.specs.Stations.{station_of};
ghost use Rattle.station.specs.Receive.{receive};
ghost use Rattle.table.specs.Front.{after_in};
ghost use Rattle.table.specs.Claims as claims;

use format::{Format, Refusal};
use slot::Slot;
use station::{Change, Station};
use stream::Answer;

// Receives an image on a bus, as Station::receive does, with the slots as a lent table. Only the record
// that the call concerns is stored to, and none where it concerns none: take_turn names it. A table
// of another length than 16 is refused with STATE, as is one that is not sound.
pub fn receive(
    format: Format,
    table: &mut [Slot],
    store: &mut [u8],
    bus: u8,
    image: &[u8],
) -> Result<Answer, Refusal>
    ensures { after_in format (meaning result) table.new store.new ≡ receive (station_of format table.old) store.old bus image.now }
{
    let Ok(slots) = <[Slot; 16]>::try_from(&*table) else {
        return Err(Refusal::State);
    };
    let turn = Station { format, slots }.take_turn(store, bus, image);
    if let Some(Change { at, slot }) = turn.change {
        table[at] = slot;
    }
    turn.answer
}

// A table of one's own, lent to receive and handed back. No HandedBack of station: a table has no format to hand back.
#[derive(Clone, Copy, Debug, PartialEq, Eq)]
pub struct Lent {
    pub table: [Slot; 16],
    pub answer: Result<Answer, Refusal>,
}

// Lends a table of one's own to receive, for a caller that has the table by value, and hands it back.
pub fn receive_by_value(
    format: Format,
    mut table: [Slot; 16],
    store: &mut [u8],
    bus: u8,
    image: &[u8],
) -> Lent
    ensures { after_in format (meaning result.answer) result.table store.new ≡ receive (station_of format table) store.old bus image.now }
{
    let answer = receive(format, &mut table, store, bus, image);
    Lent { table, answer }
}

// The claims of this crate. It does nothing: its contract ties each claim to its proof.
pub fn promised()
    ensures as_first { claims.AsFirst }
    ensures one_given { claims.OneGiven }
    ensures one_record { claims.OneRecord }
    ensures not_sound { claims.NotSound }
    ensures other_length { claims.OtherLength }
    ensures refused_keeps { claims.RefusedKeeps }
    ensures on_table { claims.OnTable }
    ensures as_run { claims.AsRun }
    ensures demand3_on_calls { claims.Demand3OnCalls }
    ensures round_trip_on_calls { claims.RoundTripOnCalls }
{}
