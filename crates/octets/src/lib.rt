// Bytes of a lent slice, read by anyone at any place: past the end stands 0. Words are unsigned, high byte first.
#![tactic(auto)]

ghost use Rattle.std.specs.Prelude.{◌+◌, ◌*◌, min, ◌≡◌, cond, ◌&&◌, ◌||◌, length, take, drop};
ghost use Rattle.octets.specs.Bytes.{byte_at, word_at, triple_at, eight, number_at, counted, xor_on};

// The byte at a place, or 0 past the end.
pub fn byte(s: &[u8], at: usize) -> u8
    ensures { result ≡ byte_at s.now at }
{
    s.get(at).copied().unwrap_or(0)
}

// The word of two bytes, high byte first.
pub fn pair(high: u8, low: u8) -> u16
    ensures { result ≡ high * 256 + low }
{
    u16::from_be_bytes([high, low])
}

// The word at a place, high byte first.
// Stays: by shifts, since with `from_be_bytes` a check takes 2 % more instructions and the opening of a raster 3 %.
pub fn word(s: &[u8], at: usize) -> u16
    ensures { result ≡ word_at s.now at }
{
    if at < s.len() {
        u16::from(s[at]) << 8 | u16::from(byte(s, at + 1))
    } else {
        0
    }
}

// The three bytes at a place as one number, high byte first.
// Stays: by shifts, as `word` and for the same reason.
pub fn triple(s: &[u8], at: usize) -> u32
    ensures { result ≡ triple_at s.now at }
{
    if at < s.len() {
        u32::from(s[at]) << 16 | u32::from(word(s, at + 1))
    } else {
        0
    }
}

// A number in eight bytes, high byte first.
pub fn eight(n: u64) -> [u8; 8]
    ensures { result ≡ eight n }
{
    n.to_be_bytes()
}

// The number in a slice's bytes, high byte first; of more than eight, in the first eight.
pub fn number(s: &[u8]) -> u64
    ensures { result ≡ number_at s.now 0 (min (length s.now) 8) }
{
    let mut n: u64 = 0;
    for b in part(s, 0, 8) {
        n = n * 256 + u64::from(*b);
    }
    n
}

// The part of a slice from a place on, of a length, as far as the slice goes: the slice's own bytes.
pub fn part(s: &[u8], at: usize, len: usize) -> &[u8]
    ensures { result.now ≡ take len (drop at s.now) }
{
    let rest = &s[at.min(s.len())..];
    &rest[..len.min(rest.len())]
}

// A count one on: 16 bits, wrapping.
pub fn counted(n: u16) -> u16
    ensures { result ≡ counted n }
{
    n.wrapping_add(1)
}

// The XOR of a number and every byte of a slice.
#[tactic(auto, using(crate::proofs::Laws::xor_fold))]
pub fn xor_on(start: u8, s: &[u8]) -> u8
    ensures { result ≡ xor_on start s.now }
{
    s.iter().fold(start, |x, b| x ^ b)
}

// Stays: the theorems of one result name the three tests below, which may not go; code says `if`, `||` and `&&`.

// A row of a table of refusals: its code where its test holds, else what the rows below it say.
pub fn refuse(test: bool, code: u8, rest: u8) -> u8
    ensures { result ≡ cond test code rest }
{
    if test { code } else { rest }
}

// Whether a test holds or any of the rest does.
pub fn either(test: bool, rest: bool) -> bool
    ensures { result ≡ (test || rest) }
{
    test || rest
}

// Whether two tests hold.
pub fn both(test: bool, rest: bool) -> bool
    ensures { result ≡ (test && rest) }
{
    test && rest
}
