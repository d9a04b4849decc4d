// Receives one image many times with a station by value, which only a Rattle program can call, and
// prints one number: so bench/pace.py measures it.
//
// Standard input has four bytes for how many times, high byte first, a byte for how many streams
// are open, a byte for the format (0 extended, 1 standard), and the image.
#![tactic(auto)]

ghost use Rattle.std.specs.Prelude.{◌≡◌, true, ◌+◌, ◌*◌, ◌≤◌, length};
ghost use Rattle.format.specs.Formats.{format_of, in_range};

use format::{Fields, Format};
use slot::Key;
use station::Station;
use std::io::{Input, Print, Read};
use stream::Answer;

// The fields of stream i.
fn fields_of(format: Format, i: u8) -> Fields
    ensures result_value { format_of result ≡ format }
    ensures result_value_2 { i ≤ 63 → in_range result ≡ true }
{
    match format {
        Format::Extended => Fields::Extended {
            priority: 1,
            source: i,
            group: 0,
            destination: 0,
            function: 2,
        },
        Format::Standard => Fields::Standard {
            priority: 1,
            address: i,
            side: 1,
        },
    }
}

// A station with so many streams open on bus A, of which it takes sixteen.
fn opened(format: Format, count: u8) -> Station {
    let mut station = Station::new(format);
    for i in 0..count {
        let key = Key {
            bus: 0,
            fields: fields_of(format, i),
        };
        station = station.open(key).station;
    }
    station
}

// Receives the image so many times, and answers how many packets came of it. It stands in images
// twice, at 0 and at 16, and the turns alternate between the two: a single one the compiler would
// judge and copy once for all turns.
fn receive_all(station: Station, store: &mut [u8], images: &[u8], size: usize, count: u32) -> u64
    requires { 16 + size ≤ length images.now }
    ensures { result ≤ count }
{
    let mut station = station;
    let mut sum: u64 = 0;
    let mut at: usize = 0;
    for _ in 0..count {
        let received = station.receive(store, 0, &images[at..at + size]);
        station = received.station;
        sum += u64::from(matches!(received.answer, Ok(Answer::Packet { .. })));
        at = 16 - at;
    }
    sum
}

// The sum of the bytes. Were the store never read, the compiler would leave out writing it.
fn total(bytes: &[u8]) -> u64
    requires { length bytes.now ≤ 65536 }
    ensures { result ≤ 255 * length bytes.now }
{
    let mut sum: u64 = 0;
    for &byte in bytes {
        sum += u64::from(byte);
    }
    sum
}

// What a request comes to: the packets, and the sum of the store's bytes; none if it is not whole.
fn answer_to(request: &[u8], store: &mut [u8]) -> Option<u64>
    requires { (length request.now ≤ 22) × (length store.old ≤ 65536) }
{
    let (head, image) = request.split_first_chunk::<6>()?;
    let [a, b, c, d, streams, format] = *head;
    let format = Format::try_from(format).unwrap_or(Format::Standard);
    let mut images = [0; 32];
    copying::copy_in(&mut images, 0, image);
    copying::copy_in(&mut images, 16, image);
    let count = u32::from_be_bytes([a, b, c, d]);
    let sum = receive_all(opened(format, streams), store, &images, image.len(), count);
    Some(sum + total(store))
}

// Reads until the request is full, the input ends or a read fails, and answers how many bytes of it
// were read. Std reads up to the end of the input into a Vec alone, and this program has no heap.
fn read_full(rt: &impl Input, request: &mut [u8]) -> usize
    ensures { result ≤ length request.new }
{
    let mut reader = rt.reader();
    let mut done = 0;
    while done < request.len() {
        match reader.read(&mut request[done..]) {
            Ok(0) | Err(_) => break,
            Ok(n) => done += n,
        }
    }
    done
}

// An image has 13 bytes at most. Of a longer one the first 16 are read, and refused as all would be.
fn main(rt: HostRuntime) {
    let mut request = [0; 22];
    let mut store = [0; 32768];
    let n = read_full(&rt, &mut request);
    if let Some(sum) = answer_to(&request[..n], &mut store) {
        let _ = println!(rt; "{sum}");
    }
}
