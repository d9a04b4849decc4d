// Frame images: what the bytes of one image say, and whether they are a sound frame.
#![tactic(auto)]

ghost use Rattle.std.specs.Prelude.{◌≡◌, ◌≤◌, length};
ghost use Rattle.format.specs.Formats.{header_size};
ghost use Rattle.frame.specs.Layout.{flag_of, layout};
ghost use Rattle.frame.specs.Judge.{piece_rule, judge, meaning};
ghost use Rattle.frame.specs.Claims.{ImageIsJudged, JudgedIsImage, OneImage, OneVerdict};
ghost use Rattle.frame.specs.Claims.{CodesAlike, EachCodeIsJudged, CountSent, WhichWay};
ghost use Rattle.frame.specs.Bounds.{JudgingBounds};

use format::{Fields, Flag, Format, Refusal};

// What stands in the bits of an image, right or wrong; `code` in those of the count.
#[derive(Clone, Copy)]
struct Layout {
    pub fixed: bool,
    pub rtr: u8,
    pub code: u8,
    pub fields: Fields,
    pub flag: Flag,
    pub number: u8,
    pub start: usize,
}

// A sound frame, but for its packet bytes: these are the image's bytes from start to its end.
#[derive(Clone, Copy, Debug, PartialEq, Eq)]
pub struct Head {
    pub fields: Fields,
    pub flag: Flag,
    pub number: u8,
    pub start: usize,
}

// The flag that the two bits of an image are; a number over 3 is read as a single's.
pub fn flag_of(bits: u8) -> Flag
    ensures { result ≡ flag_of bits }
{
    Flag::try_from(bits).unwrap_or(Flag::Single)
}

#[tactic(auto, unfolding(crate::specs::Layout::layout, format::specs::Tests::all_true, format::specs::Tests::all_after))]
fn layout_extended(image: &[u8]) -> Layout
    requires { header_size Format.Extended ≤ length image.now }
    ensures { result ≡ layout Format.Extended image.now }
{
    let [b0, b1, b2, b3, b4, ..] = *image else {
        unreachable!()
    };
    let flag = flag_of(b3 / 64);
    Layout {
        fixed: (b0 / 128 == 1) & (b0 / 16 % 4 == 0) & (b4 % 8 == 0),
        rtr: b0 / 64 % 2,
        code: b0 % 16,
        fields: Fields::Extended {
            priority: b1 / 64,
            source: b1 % 64,
            group: b2 / 64,
            destination: b2 % 64,
            function: b4 / 8,
        },
        flag,
        number: b3 % 64,
        start: Format::Extended.packet_start(flag),
    }
}

#[tactic(auto, unfolding(crate::specs::Layout::layout, format::specs::Tests::all_true, format::specs::Tests::all_after))]
fn layout_standard(image: &[u8]) -> Layout
    requires { header_size Format.Standard ≤ length image.now }
    ensures { result ≡ layout Format.Standard image.now }
{
    let [b0, b1, ..] = *image else { unreachable!() };
    let flag = flag_of(b1 / 32 % 4);
    // In a start, middle or end piece the first data byte is the number.
    let number = match *image {
        [_, _, number, ..] if Format::Standard.numbered(flag) => number,
        _ => 0,
    };
    Layout {
        fixed: true,
        rtr: b1 / 16 % 2,
        code: b1 % 16,
        fields: Fields::Standard {
            priority: b0 / 64,
            address: b0 % 64,
            side: b1 / 128,
        },
        flag,
        number,
        start: Format::Standard.packet_start(flag),
    }
}

fn layout_of(format: Format, image: &[u8]) -> Layout
    requires { header_size format ≤ length image.now }
    ensures { result ≡ layout format image.now }
{
    match format {
        Format::Extended => layout_extended(image),
        Format::Standard => layout_standard(image),
    }
}

#[tactic(auto, unfolding(crate::specs::Judge::piece_rule, format::specs::Tests::all_true, format::specs::Tests::all_after))]
fn piece_rule(format: Format, flag: Flag, count: u8, number: u8) -> bool
    ensures { result ≡ piece_rule format flag count number }
{
    match (flag, format) {
        (Flag::Single, _) => (count <= 8) & (number == 0),
        (Flag::Start, _) => (count == 8) & (number == 0),
        (Flag::Middle, Format::Extended) => count == 8,
        (Flag::Middle, Format::Standard) => (count == 8) & (1 <= number) & (number <= 254),
        (Flag::End, Format::Extended) => (1 <= count) & (count <= 8),
        (Flag::End, Format::Standard) => {
            (1 <= number)
                & (number <= 255)
                & (2 <= count)
                & (count <= 8)
                & ((number != 1) | (3 <= count))
        }
    }
}

// Judges an image of any bytes and any length: the frame that it is, or the first refusal of 1 to
// 4, 25 and 5 that applies.
#[tactic(auto, unfolding(crate::specs::Judge::judge, crate::specs::Judge::checks, format::specs::Refusals::guarded, format::specs::Tests::all_true, format::specs::Tests::all_after))]
pub fn judge(format: Format, image: &[u8]) -> Result<Head, Refusal>
    ensures { meaning result image.now ≡ judge format image.now }
{
    let Some(size) = image.len().checked_sub(format.header_size()) else {
        return Err(Refusal::Length);
    };
    if size > 8 {
        return Err(Refusal::Length);
    }
    let l = layout_of(format, image);
    if !l.fixed {
        return Err(Refusal::Form);
    }
    if l.rtr != 0 {
        return Err(Refusal::Remote);
    }
    // The codes over 8 say eight too.
    let count = l.code.min(8);
    // Most lengths are right: one test for them, and a second for which way one is wrong.
    let said = usize::from(count);
    if size != said {
        return Err(if size < said {
            Refusal::Count
        } else {
            Refusal::Surplus
        });
    }
    if !piece_rule(format, l.flag, count, l.number) {
        return Err(Refusal::Piece);
    }
    Ok(Head {
        fields: l.fields,
        flag: l.flag,
        number: l.number,
        start: l.start,
    })
}

// The claims of this crate. It does nothing: its contract ties each claim to its proof.
pub fn promised()
    ensures image_is_judged { ImageIsJudged }
    ensures codes_alike { CodesAlike }
    ensures each_code_is_judged { EachCodeIsJudged }
    ensures count_sent { CountSent }
    ensures which_way { WhichWay }
    ensures judged_is_image { JudgedIsImage }
    ensures one_image { OneImage }
    ensures one_verdict { OneVerdict }
    ensures judging_bounds { JudgingBounds }
{}
