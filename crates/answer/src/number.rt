// A number in two bytes, the low one first.
ghost use Rattle.std.specs.Prelude.{◌≡◌};
ghost use Rattle.answer.specs.Number.{number_of};

use crate::fixed::fit;

// The number that starts a byte string.
pub fn transaction_number(data: &[u8]) -> u16
    ensures { result ≡ number_of «data».now }
{
    u16::from_le_bytes(fit(data))
}
