// A listing of a trace, in the slots of the station.
ghost use Rattle.std.specs.Prelude.{◌≡◌, length, replicate};
ghost use Rattle.format.specs.Refusals.{meaning};
ghost use Rattle.format.specs.Outputs.{answer, output_after};
ghost use Rattle.lister.specs.Listing.{listing, listing_after, ending};
ghost use Rattle.copying.specs.Copy.{copied};
ghost use Rattle.lister.specs.Listing as listings;
ghost use Rattle.calls_program.specs.Responses.{number2_bytes, number8_bytes, reason_bytes};

use crate::request::{long, number, rest};
use crate::response::{Says, number_bytes, put_answer, put_outcome, put_refused, put_value};
use crate::stations::Desk;
use copying::copy_in;
use format::Refusal;
use lister::{Listed, Listing, Why};

// The size of an answer with the count.
const WITH_COUNT: usize = 12;

// The same with the bytes used and written.
const WITH_SIZES: usize = 16;

fn put_why(out: &mut [u8], why: Result<Why, Refusal>)
    ensures { out.new ≡ copied out.old 0 (reason_bytes (listings.meaning why)) }
{
    match why {
        Ok(Why::Input) => put_answer(out, Says::Input, 0, 0),
        Ok(Why::Room) => put_answer(out, Says::Room, 0, 0),
        Ok(Why::Damaged) => put_answer(out, Says::Damaged, 0, 0),
        Err(name) => put_refused(out, name),
    }
}

// Why the call went no further, and how far it came.
fn put_listed(out: &mut [u8], listed: &Listed)
    ensures { out.new ≡ copied (copied (copied (copied out.old 0 (reason_bytes (listings.meaning listed.now.why))) 4 (number8_bytes listed.now.listing.count)) 12 (number2_bytes listed.now.used)) 14 (number2_bytes listed.now.written) }
{
    put_why(out, listed.why);
    copy_in(out, 4, &listed.listing.count.to_be_bytes());
    copy_in(out, 12, &number_bytes(listed.used));
    copy_in(out, 14, &number_bytes(listed.written));
}

// The call of LIST, on an output that is all '-'.
fn list_over(listing: Listing, store: &mut [u8], input: &[u8], output: &mut [u8]) -> Listed
    ensures { listing_after result store.new output.new ≡ listings.listing listing store.old input.now (replicate (length output.old) 45) }
{
    output.fill(b'-');
    listing.list(store, input, output)
}

// The call of END, in the same way.
fn end_over(listing: Listing, input: &[u8], output: &mut [u8]) -> Result<usize, Refusal>
    ensures result_value { meaning result ≡ answer (ending listing input.now (length output.old)) }
    ensures output_after { output.new ≡ output_after (ending listing input.now (length output.old)) (replicate (length output.old) 45) }
{
    output.fill(b'-');
    listing.end(input, output)
}

impl Desk {
    ghost use Rattle.calls_program.specs.Desks.{as_done, listing_of};
    ghost use Rattle.calls_program.specs.Desks as desks;
    ghost use Rattle.calls_program.specs.Requests.{number8_at};
    ghost use Rattle.lister.specs.Listing.{new_listing};

    fn listing(&self) -> Listing
        ensures { result ≡ listing_of self.now }
    {
        let slots = self.station.slots;
        Listing {
            slots,
            count: self.count,
        }
    }

    // The slots and the count become those of a listing.
    fn keep(&mut self, listing: Listing)
        ensures { self.new ≡ desks.with_listing self.old listing }
    {
        let Listing { slots, count } = listing;
        self.station.slots = slots;
        self.count = count;
    }

    // A new listing, or one by hand with that count.
    fn set_listing(&mut self, listing: Listing, out: &mut [u8]) -> usize
        ensures { as_done self.new result out.new ≡ desks.listing_set listing self.old out.old }
    {
        self.keep(listing);
        put_value(out, 0);
        copy_in(out, 4, &listing.count.to_be_bytes());
        WITH_COUNT
    }

    pub fn renew_listing(&mut self, out: &mut [u8]) -> usize
        ensures { as_done self.new result out.new ≡ desks.listing_set new_listing self.old out.old }
    {
        self.set_listing(Listing::new(), out)
    }

    pub fn set_count(&mut self, args: &[u8], out: &mut [u8]) -> usize
        ensures { as_done self.new result out.new ≡ desks.listing_set (record { slots = self.old.station.slots; count = number8_at args.now 0 }) self.old out.old }
    {
        let listing = Listing {
            count: long(args, 0),
            ..self.listing()
        };
        self.set_listing(listing, out)
    }

    // The output lent to the call is the part of the response after what it hands back.
    pub fn list(&mut self, args: &[u8], out: &mut [u8]) -> usize
        ensures { as_done self.new result out.new ≡ desks.part_listed args.now self.old out.old }
    {
        let size = WITH_SIZES + number(args, 0);
        if size > out.len() {
            return 0;
        }
        let n = self.lent_size();
        let listing = self.listing();
        let listed = list_over(
            listing,
            &mut self.bytes[..n],
            rest(args, 2),
            &mut out[WITH_SIZES..size],
        );
        put_listed(out, &listed);
        self.keep(listed.listing);
        size
    }

    // In the same way.
    pub fn end(&self, args: &[u8], out: &mut [u8]) -> usize
        ensures { as_done self.now result out.new ≡ desks.listing_ended args.now self.now out.old }
    {
        let size = WITH_COUNT + number(args, 0);
        if size > out.len() {
            return 0;
        }
        let answer = end_over(self.listing(), rest(args, 2), &mut out[WITH_COUNT..size]);
        put_outcome(out, answer);
        copy_in(out, 4, &self.count.to_be_bytes());
        size
    }
}
