// Byte strings: copies, exclusive or, and a comparison that reads every byte.
ghost use Rattle.std.specs.Prelude.{◌≡◌, true, ◌++◌, ◌+◌, ◌≤◌, length, take, drop, replicate};
ghost use Rattle.cipher.specs.Bytes.{◌⊕◌};

// Whether a and b are equal. Where they have one length, the work does not depend on where they differ.
pub fn ct_eq(a: &[u8], b: &[u8]) -> bool
    ensures { (result ≡ true → a.now ≡ b.now) × (a.now ≡ b.now → result ≡ true) }
{
    if a.len() != b.len() {
        return false;
    }
    let mut diff = 0u8;
    for (x, y) in a.iter().zip(b) {
        diff |= x ^ y;
    }
    diff == 0
}

pub fn xor_blocks<const N: usize>(a: [u8; N], b: [u8; N]) -> [u8; N]
    ensures { result ≡ a.entry ⊕ b.entry }
{
    let mut out = a;
    xor_into(&mut out, &b);
    out
}

// Copies src over the front of dst, as far as both reach. The loop is memcpy in the archive: copy_from_slice would be memmove, which the
// archive may not call.
pub fn copy(src: &[u8], dst: &mut [u8])
    ensures { dst.new ≡ take (length dst.old) src.now ++ drop (length src.now) dst.old }
{
    let n = src.len().min(dst.len());
    for (i, byte) in src[..n].iter().enumerate() {
        dst[i] = *byte;
    }
}

// Sets each byte of dst to value.
pub fn fill(dst: &mut [u8], value: u8)
    ensures { dst.new ≡ replicate (length dst.old) value }
{
    dst.fill(value);
}

// The N bytes of s at index at.
pub(crate) fn load<const N: usize>(s: &[u8], at: usize) -> [u8; N]
    requires { at + N ≤ length s.now }
    ensures { result ≡ take N (drop at s.now) }
{
    let mut block = [0u8; N];
    block.copy_from_slice(&s[at..at + N]);
    block
}

// Writes b into s at index at.
pub(crate) fn store<const N: usize>(s: &mut [u8], at: usize, b: &[u8; N])
    requires { at + N ≤ length s.old }
    ensures { s.new ≡ take at s.old ++ b.now ++ drop (at + N) s.old }
{
    s[at..at + N].copy_from_slice(b);
}

// Adds the first bytes of b to those of s, as far as both reach.
pub(crate) fn xor_into<const N: usize>(s: &mut [u8], b: &[u8; N])
    ensures { s.new ≡ (s.old ⊕ b.now) ++ drop N s.old }
{
    // s goes by index, since std says nothing of what `iter_mut().zip(b)` wrote.
    let n = s.len().min(N);
    for (i, y) in b[..n].iter().enumerate() {
        s[i] ^= y;
    }
}
