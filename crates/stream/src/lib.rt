// One stream: what a frame of its key does to its progress and to its area.
#![tactic(auto)]

ghost use Rattle.std.specs.Prelude.{◌≡◌, ◌+◌, ◌≤◌, ◌<◌, length, OnOk, IfErr, Err};
ghost use Rattle.copying.specs.Copy.{written};
ghost use Rattle.format.specs.Refusals.{guarded};
ghost use Rattle.format.specs.Refusals as answers;
ghost use Rattle.stream.specs.Step.{collecting, held, follows, progress_after, stepped, offered, next_of};
ghost use Rattle.stream.specs.Claims.{OneAnswer};
ghost use Rattle.stream.specs.Bounds.{StepBounds};

use format::{Flag, Format, Refusal};

// How far a stream is. Collecting and Done hold h, the number of bytes at the head of the area.
#[derive(Clone, Copy, Debug, PartialEq, Eq)]
pub enum Progress {
    Idle,
    Collecting(u16),
    Done(u16),
}

// What a receiving call answers that is not refused.
#[derive(Clone, Copy, Debug, PartialEq, Eq)]
pub enum Answer {
    Packet { length: usize, broke: bool },
    Kept { broke: bool },
    Filtered,
}

// The answer at a frame, and the progress after it.
#[derive(Clone, Copy, Debug, PartialEq, Eq)]
pub struct Stepped {
    pub answer: Result<Answer, Refusal>,
    pub progress: Progress,
}

// The bytes lent to one stream: room for the longest packet.
#[derive(Clone, Copy, Debug, PartialEq, Eq)]
pub struct Area;

impl Area {
    pub const SIZE: usize = 2048;
}

fn collecting(progress: Progress) -> bool
    ensures { result ≡ collecting progress }
{
    matches!(progress, Progress::Collecting(_))
}

fn refuse(name: Refusal, progress: Progress) -> Stepped
    ensures { result ≡ record { answer = Err name; progress = progress } }
{
    Stepped {
        answer: Err(name),
        progress,
    }
}

// Writes the bytes from place at of the area on, and answers where they end.
fn hold(at: usize, bytes: &[u8], area: &mut [u8]) -> u16
    requires { (at + length bytes.now ≤ 2048) × (length area.old ≡ 2048) }
    ensures value { result ≡ at + length bytes.now }
    ensures area_after { area.new ≡ written area.old at bytes.now }
{
    copying::copy_in(area, at, bytes);
    (at + bytes.len()) as u16
}

// The bytes of a middle or an end follow those held, over the piece size z and the number range m. Answers where they
// end, or ORPHAN, STEP, LONG. A collecting stream is idle after it: the caller says what it is once the bytes are written.
#[tactic(auto, unfolding(crate::specs::Step::follows, crate::specs::Step::progress_after, format::specs::Refusals::guarded))]
fn append(
    z: usize,
    m: usize,
    progress: &mut Progress,
    number: u8,
    bytes: &[u8],
    area: &mut [u8],
) -> Result<u16, Refusal>
    requires { (0 < z) × (0 < m) × (length area.old ≡ 2048) × (length bytes.now ≤ 8) }
    ensures end { answers.meaning result ≡ guarded (follows z m progress.old number (length bytes.now)) (held progress.old + length bytes.now) }
    ensures ok { OnOk result (area.new ≡ written area.old (held progress.old) bytes.now) }
    ensures err { IfErr result (λ name. (progress.new ≡ progress_after (answers.number name) progress.old) × (area.new ≡ area.old)) }
{
    let Progress::Collecting(h) = *progress else {
        return Err(Refusal::Orphan);
    };
    *progress = Progress::Idle;
    let held = usize::from(h);
    if usize::from(number) != held / z % m {
        return Err(Refusal::Step);
    }
    if held > Area::SIZE - bytes.len() {
        return Err(Refusal::Long);
    }
    Ok(hold(held, bytes, area))
}

// The step in both formats, over the piece size z and the number range m, and a progress that it changes.
fn advance(
    z: usize,
    m: usize,
    progress: &mut Progress,
    flag: Flag,
    number: u8,
    bytes: &[u8],
    area: &mut [u8],
) -> Result<Answer, Refusal>
    requires { (0 < z) × (0 < m) × (length area.old ≡ 2048) × (length bytes.now ≤ 8) }
    ensures { next_of (record { answer = result; progress = progress.new }) area.new ≡ stepped z m progress.old area.old flag number bytes.now }
{
    let broke = collecting(*progress);
    match flag {
        Flag::Start => {
            let n = hold(0, bytes, area);
            *progress = Progress::Collecting(n);
            Ok(Answer::Kept { broke })
        }
        Flag::Single => {
            let length = bytes.len();
            let n = hold(0, bytes, area);
            *progress = Progress::Done(n);
            Ok(Answer::Packet { length, broke })
        }
        Flag::Middle => {
            let end = append(z, m, progress, number, bytes, area)?;
            *progress = Progress::Collecting(end);
            Ok(Answer::Kept { broke: false })
        }
        Flag::End => {
            let end = append(z, m, progress, number, bytes, area)?;
            *progress = Progress::Done(end);
            Ok(Answer::Packet {
                length: usize::from(end),
                broke: false,
            })
        }
    }
}

// What a frame, by its flag, number and packet bytes, does to a stream: its answer and the progress
// after it; its bytes are written to the area. Refuses an area of another size than Area::SIZE with
// STORE, more than 8 bytes with SURPLUS, and then changes nothing. These three are no struct: a head has the first two,
// and the bytes lie in the image.
pub fn step(
    format: Format,
    mut progress: Progress,
    flag: Flag,
    number: u8,
    bytes: &[u8],
    area: &mut [u8],
) -> Stepped
    ensures { next_of result area.new ≡ offered format progress area.old flag number bytes.now }
{
    if area.len() != Area::SIZE {
        return refuse(Refusal::Store, progress);
    }
    if bytes.len() > 8 {
        return refuse(Refusal::Surplus, progress);
    }
    let z = format.piece_size();
    let m = format.number_range();
    let answer = advance(z, m, &mut progress, flag, number, bytes, area);
    Stepped { answer, progress }
}

// The claims of this crate. It does nothing: its contract ties each claim to its proof.
pub fn promised()
    ensures one_answer { OneAnswer }
    ensures step_bounds { StepBounds }
{}
