// Byte strings of a fixed length, as arrays.
ghost use Rattle.std.specs.Prelude.{◌≡◌, length};
ghost use Rattle.answer.specs.Fixed.{fit, HasExactly};

use crate::refusal::Refusal;

// The bytes of s, which has to have N of them.
pub fn exact<const N: usize>(s: &[u8]) -> Result<[u8; N], Refusal>
    ensures { HasExactly N s.now result }
{
    <[u8; N]>::try_from(s).map_err(|_| Refusal::BadMarkOrLength)
}

// The first N bytes of s. Bytes that are not there are 0.
pub fn fit<const N: usize>(s: &[u8]) -> [u8; N]
    ensures { (result ≡ fit N s.now) × (length s.now ≡ N → result ≡ s.now) }
{
    let mut a = [0u8; N];
    cipher::copy(s, &mut a);
    a
}
