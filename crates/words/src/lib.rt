// Numbers of 32 bits as four bytes, low byte first. Calls of their own over the library's, as
// their contracts cite the definitions in which documents and claims speak of lent bytes.
#![tactic(auto)]

ghost use Rattle.std.specs.Prelude.{◌≡◌};
ghost use Rattle.words.specs.Words.{word_bytes, word_of};

// The number of four bytes.
#[tactic(auto, unfolding(crate::specs::Words::word_of))]
pub fn word_of(a: u8, b: u8, c: u8, d: u8) -> u32
    ensures { result ≡ word_of a b c d }
{
    u32::from_le_bytes([a, b, c, d])
}

// The four bytes of a number.
#[tactic(auto, unfolding(crate::specs::Words::word_bytes))]
pub fn word_bytes(word: u32) -> [u8; 4]
    ensures { result ≡ word_bytes word }
{
    word.to_le_bytes()
}
