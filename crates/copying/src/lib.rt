// Copying into lent bytes: the one function that writes packet bytes.
#![tactic(auto)]

ghost use Rattle.std.specs.Prelude.{◌≡◌, ◌+◌, ◌≤◌, length};
ghost use Rattle.copying.specs.Copy.{written, within, copied};

// Writes bytes over the target from place at on and answers true, or where they do not end within
// the target writes nothing and answers false.
#[tactic(auto, unfolding(crate::specs::Copy::within, crate::specs::Copy::copied, crate::specs::Copy::written))]
pub fn copy_in(target: &mut [u8], at: usize, bytes: &[u8]) -> bool
    ensures value { result ≡ within target.old at bytes.now }
    ensures target_after { target.new ≡ copied target.old at bytes.now }
{
    let n = bytes.len();
    let room = target.len();
    if at > room || n > room - at {
        return false;
    }

    // Most pieces have eight bytes. Read whole before the first is written, they move at once: the
    // compiler need not think of a target that overlaps them.
    if let Ok(eight) = <[u8; 8]>::try_from(bytes) {
        target[at..at + 8].copy_from_slice(&eight);
        return true;
    }

    // A loop, as copy_from_slice of any length calls memmove, and the library needs no C library.
    for (j, byte) in bytes.iter().enumerate() {
        target[at + j] = *byte;
    }
    true
}
