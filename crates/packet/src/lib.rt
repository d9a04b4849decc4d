// Splitting: the pieces of a packet, as frame images.
#![tactic(auto)]

ghost use Rattle.std.specs.Prelude.{◌≡◌, true, ◌++◌, ◌+◌, ◌%◌, ◌≤◌, ◌<◌, length, take};
ghost use Rattle.copying.specs.Copy.{copied};
ghost use Rattle.format.specs.Formats.{number_range, format_of, in_range};
ghost use Rattle.format.specs.Refusals.{meaning};
ghost use Rattle.format.specs.Outputs.{fitting, answer, over, output_after, Writes};
ghost use Rattle.frame.specs.Image.{header_bytes, image_of};
ghost use Rattle.packet.specs.Split.{count_of, piece_flag, piece_bytes, frame_with};
ghost use Rattle.packet.specs.Send.{piece_count, send};
ghost use Rattle.packet.specs.Parts.{filler};
ghost use Rattle.packet.specs.Claims.{Splitting};
ghost use Rattle.packet.specs.Examples.{ExamplesHold};
ghost use Rattle.packet.specs.Bounds.{SendingBounds};

use format::{Fields, Flag, Format, Refusal};

// The number of pieces, over the piece size z.
#[tactic(auto, using(crate::proofs::Counts::rounded_up), unfolding(crate::specs::Split::count_of))]
fn count_of(z: usize, n: usize) -> usize
    requires { (0 < z) × (z ≤ 8) × (n ≤ 2048) }
    ensures { result ≡ count_of z n }
{
    if n <= 8 {
        return 1;
    }
    n.div_ceil(z)
}

// The number of pieces of a packet of that size, or SIZE.
#[tactic(auto, using(crate::proofs::Counts::sizes), unfolding(crate::specs::Send::piece_count, format::specs::Refusals::guarded))]
pub fn piece_count(format: Format, size: usize) -> Result<usize, Refusal>
    ensures { meaning result ≡ piece_count format size }
{
    if size > format.packet_limit() {
        return Err(Refusal::Size);
    }
    Ok(count_of(format.piece_size(), size))
}

#[tactic(auto, unfolding(crate::specs::Split::piece_flag))]
fn flag_at(count: usize, k: usize) -> Flag
    requires { k < count }
    ensures { result ≡ piece_flag count k }
{
    match k {
        _ if count == 1 => Flag::Single,
        0 => Flag::Start,
        _ if k + 1 == count => Flag::End,
        _ => Flag::Middle,
    }
}

// The number of piece k, over the number range.
fn number_at(range: usize, k: usize) -> u8
    requires { (0 < range) × (range ≤ 256) }
    ensures { result ≡ k % range }
{
    (k % range) as u8
}

// The packet bytes of piece k, over the piece size z.
#[tactic(auto, unfolding(crate::specs::Split::piece_bytes))]
fn bytes_at(z: usize, packet: &[u8], k: usize) -> &[u8]
    requires { (0 < z) × (z ≤ 8) × (length packet.now ≤ 2048) × (k < count_of z (length packet.now)) }
    ensures { result.now ≡ piece_bytes z packet.now k }
{
    if packet.len() <= 8 {
        return packet;
    }
    let from = z * k;
    let left = &packet[from..];
    &left[..z.min(left.len())]
}

// Writes the first m of head over the output from its start. The lengths that a header has are told
// apart, so that the compiler moves a few bytes, where it would call memcpy for any length.
fn put_head(head: &[u8; 6], m: usize, output: &mut [u8])
    requires { m ≤ 6 }
    ensures { output.new ≡ copied output.old 0 (take m head.now) }
{
    match m {
        5 => copying::copy_in(output, 0, &head[..5]),
        3 => copying::copy_in(output, 0, &head[..3]),
        2 => copying::copy_in(output, 0, &head[..2]),
        _ => copying::copy_in(output, 0, &head[..m]),
    };
}

// Writes the first m of head and then bytes over the output from its start.
#[tactic(auto, using(crate::proofs::Writing::then))]
fn put(head: &[u8; 6], m: usize, bytes: &[u8], output: &mut [u8])
    requires { (m ≤ 6) × (m + length bytes.now ≤ length output.old) }
    ensures { output.new ≡ over (take m head.now ++ bytes.now) output.old }
{
    put_head(head, m, output);
    copying::copy_in(output, m, bytes);
}

// What a frame has before its packet bytes, in range. It is lent to its methods: by value its eight
// bytes are one word to the compiler, which takes it apart again.
#[derive(Clone, Copy)]
struct Header {
    fields: Fields,
    flag: Flag,
    number: u8,
    ghost fields_in_range: { in_range fields ≡ true },
    ghost number_in_range: { number < number_range (format_of fields) },
}

impl Header {
    // Its bytes, after them the number for the pieces that have it among their data bytes, and zeros.
    // A count of 9, eight bytes and a number, never comes about; allowing it spares write a test.
    #[tactic(auto, using(frame::proofs::Flags::bits_small), unfolding(format::specs::Formats::in_range, format::specs::Tests::all_true, format::specs::Tests::all_after, frame::specs::Image::header_bytes, crate::specs::Parts::filler))]
    fn bytes(&self, count: u8) -> [u8; 6]
        requires { count ≤ 9 }
        ensures { result ≡ header_bytes self.now.fields self.now.flag self.now.number count ++ filler self.now.fields self.now.number }
    {
        let bits = self.flag.bits();
        match self.fields {
            Fields::Extended {
                priority,
                source,
                group,
                destination,
                function,
            } => [
                128 + count,
                64 * priority + source,
                64 * group + destination,
                64 * bits + self.number,
                8 * function,
                0,
            ],
            Fields::Standard {
                priority,
                address,
                side,
            } => [
                64 * priority + address,
                128 * side + 32 * bits + count,
                self.number,
                0,
                0,
                0,
            ],
        }
    }

    // Writes the image of the frame that has those packet bytes, or refuses with ROOM.
    fn write(&self, bytes: &[u8], output: &mut [u8]) -> Result<usize, Refusal>
        requires { length bytes.now ≤ 8 }
        ensures { Writes (fitting (image_of (frame_with self.now.fields self.now.flag self.now.number bytes.now)) (length output.old)) output.old (meaning result) output.new }
    {
        let format = self.fields.format();
        let start = format.packet_start(self.flag);
        let size = start + bytes.len();
        if output.len() < size {
            return Err(Refusal::Room);
        }
        let count = size - format.header_size();
        let head = self.bytes(count as u8);
        put(&head, start, bytes, output);
        Ok(size)
    }
}

// Writes the image of piece k of a packet over the head of the output and answers its length, or
// refuses: FIELD, SIZE, INDEX, ROOM.
pub fn write_piece(
    fields: Fields,
    packet: &[u8],
    k: usize,
    output: &mut [u8],
) -> Result<usize, Refusal>
    ensures result_value { meaning result ≡ answer (send fields packet.now k (length output.old)) }
    ensures output_after { output.new ≡ output_after (send fields packet.now k (length output.old)) output.old }
{
    if !fields.in_range() {
        return Err(Refusal::Field);
    }
    let format = fields.format();
    let n = packet.len();
    if n > format.packet_limit() {
        return Err(Refusal::Size);
    }
    let z = format.piece_size();
    let count = count_of(z, n);
    if k >= count {
        return Err(Refusal::Index);
    }
    let range = format.number_range();
    let header = Header {
        fields,
        flag: flag_at(count, k),
        number: number_at(range, k),
    };
    header.write(bytes_at(z, packet, k), output)
}

// The claims of this crate. It does nothing: its contract ties each claim to its proof.
pub fn promised()
    ensures splitting { Splitting }
    ensures examples { ExamplesHold }
    ensures sending_bounds { SendingBounds }
{}
