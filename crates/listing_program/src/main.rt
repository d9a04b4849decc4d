// Lists a trace of extended frames that arrives on standard input: the header, a line a record, and
// the count.
#![tactic(auto)]

ghost use Rattle.std.specs.Prelude.{◌≡◌, ◌≤◌, length, take, IfOk, MatchResult};
ghost use Rattle.format.specs.Outputs.{output_after};
ghost use Rattle.lister.specs.Listing as listings;

use format::Refusal;
use lister::{Listing, Why};
use std::io::{Input, Print};
use trace::Line;

// Between two reads: the listing, and how many bytes of the input are held that are no whole record.
#[derive(Clone, Copy, Debug, PartialEq, Eq)]
struct Session {
    listing: Listing,
    held: usize,
}

// Writes a line or lines that stand at the head of the output, and answers whether they were.
fn write(rt: &(impl Print + Eprint), answer: Result<usize, Refusal>, output: &[u8]) -> bool {
    match answer {
        Ok(n) => pipes::write_out(rt, output, n),
        Err(_) => false,
    }
}

// The last lines, where no more comes than what is left of the input.
fn end(rt: &(impl Print + Eprint), listing: Listing, rest: &[u8], output: &mut [u8]) -> Listing
    ensures value { result ≡ listing }
    ensures output_after { output.new ≡ output_after (listings.ending listing rest.now (length output.old)) output.old }
{
    let answer = listing.end(rest, output);
    write(rt, answer, output);
    listing
}

// Reads on. Where no more comes, the listing ends with what is held: a number beside the input, as
// pipes has it.
fn more(
    rt: &(impl Input + Print + Eprint),
    listing: Listing,
    input: &mut [u8],
    held: usize,
    output: &mut [u8],
) -> Result<Session, Listing>
    requires { held ≤ length input.old }
    ensures held_in_bounds { IfOk result (λ next. next.held ≤ length input.old) }
    ensures listing_value { MatchResult result (λ next. next.listing ≡ listing) (λ last. last ≡ listing) }
{
    let all = pipes::read_on(rt, input, held);
    if all == held {
        return Err(end(rt, listing, &input[..held], output));
    }
    Ok(Session { listing, held: all })
}

// Lists what is held, writes the lines, and reads on where all whole records are listed. So no line
// waits for more input. An error is the session's end: the listing that it ended with, so that what is
// ended is held to what was listed.
fn turn(
    rt: &(impl Input + Print + Eprint),
    session: Session,
    store: &mut [u8],
    input: &mut [u8],
    output: &mut [u8],
) -> Result<Session, Listing>
    requires { session.held ≤ length input.old }
    ensures held_in_bounds { IfOk result (λ next. next.held ≤ length input.old) }
    ensures listing_value { MatchResult result (λ next. next.listing ≡ (listings.listing session.listing store.old (take session.held input.old) output.old).listing) (λ last. last ≡ (listings.listing session.listing store.old (take session.held input.old) output.old).listing) }
    ensures store_after { store.new ≡ (listings.listing session.listing store.old (take session.held input.old) output.old).store }
{
    let Session { listing, held } = session;
    let listed = listing.list(store, &input[..held], output);
    let listing = listed.listing;
    // No one is there to read it, or it cannot be written.
    if !pipes::write_out(rt, output, listed.written) {
        return Err(listing);
    }
    let held = pipes::keep(input, listed.used, held);
    match listed.why {
        Ok(Why::Input) => more(rt, listing, input, held, output),
        Ok(Why::Room) => Ok(Session { listing, held }),
        Ok(Why::Damaged) => Err(end(rt, listing, &input[..held], output)),
        // Never: the listing stays sound (claim ListingStaysSound of lister), and the store has its size.
        Err(_) => Err(listing),
    }
}

// A proved loop has to end, and nothing says that the input does: the turns are counted up to a
// number that no run comes to.
fn list(rt: &(impl Input + Print + Eprint), store: &mut [u8], input: &mut [u8], output: &mut [u8]) {
    let answer = trace::write_line(Line::Header, output);
    if !write(rt, answer, output) {
        return;
    }
    let mut session = Session {
        listing: Listing::new(),
        held: 0,
    };
    for _ in 0..u64::MAX {
        let Ok(next) = turn(rt, session, store, input, output) else {
            return;
        };
        session = next;
    }
}

// A record of 16 bytes has a line of 40 or so, so what is read at once is mostly written at once.
fn main(rt: HostRuntime) {
    let mut store = [0; 32768];
    let mut input = [0; 65536];
    let mut output = [0; 262144];
    list(&rt, &mut store, &mut input, &mut output);
}
