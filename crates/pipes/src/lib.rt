// What the programs share that work off their input as it arrives: reading on after what is held,
// moving what is left to the front, and writing what was filled. How many bytes count stays beside
// the lent bytes: the calls answer for a number past their end too, which a struct would exclude.
#![tactic(auto)]

ghost use Rattle.std.specs.Prelude.{◌≡◌, false, ◌≤◌, ◌<◌, length};
ghost use Rattle.pipes.specs.Holding.{ReadOn, left, moved};

use std::io::{ErrorKind, Input, Print, Read};

// Reads once, after the first held bytes of the input, and answers how many are held then: no more
// than before at the input's end. A read that fails counts as the end, and standard error says why.
pub fn read_on(rt: &(impl Input + Eprint), input: &mut [u8], held: usize) -> usize
    ensures { ReadOn input.old held result input.new }
{
    if held > input.len() {
        return held;
    }
    let mut reader = rt.reader();
    match reader.read(&mut input[held..]) {
        Ok(n) => held + n,
        Err(e) => {
            let _ = eprintln!(rt; "standard input: {e}");
            held
        }
    }
}

// Moves what stands from a place to the end of the first held bytes to the front, and answers how
// much it is.
pub fn keep(input: &mut [u8], at: usize, held: usize) -> usize
    ensures upper_bound { result ≤ length input.old }
    ensures value { result ≡ left input.old at held }
    ensures input_after { input.new ≡ moved input.old at held }
{
    if held > input.len() || at > held {
        return 0;
    }
    input.copy_within(at..held, 0);
    held - at
}

// Writes the first bytes of the output, and answers whether all of them were. Standard error says
// why a write failed, unless it is that its reader has gone.
pub fn write_out(rt: &(impl Print + Eprint), output: &[u8], filled: usize) -> bool
    ensures { length output.now < filled → result ≡ false }
{
    let Some(bytes) = output.get(..filled) else {
        return false;
    };
    match Print::write_all(rt, bytes) {
        Ok(()) => true,
        Err(e) => {
            if e.kind() != ErrorKind::BrokenPipe {
                let _ = eprintln!(rt; "standard output: {e}");
            }
            false
        }
    }
}
