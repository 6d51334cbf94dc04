// What every operation answers: an acceptance with its values, or a refusal.
ghost use Rattle.std.specs.Prelude.{◌≡◌};

use crate::refusal::Refusal;

// length: how many bytes were written, or the size that a forecast gives; transaction_number: that of what was opened, or a session's after its
// step; padding: how many bytes a sealing added, 0 to 7. What an operation does not have is 0, as docs/NUMBERS.md has it: so one type, and one
// relation (Meets), serves every operation.
#[derive(Clone, Copy, Debug, PartialEq, Eq)]
pub struct Accepted {
    pub length: u16,
    pub transaction_number: u16,
    pub padding: u8,
}

pub type Answer = Result<Accepted, Refusal>;

impl Accepted {
    // An acceptance with a length.
    pub fn sized(length: u16) -> Self
        ensures { (result.length ≡ length) × (result.transaction_number ≡ 0) × (result.padding ≡ 0) }
    {
        Accepted {
            length,
            transaction_number: 0,
            padding: 0,
        }
    }

    // An acceptance with a length and a transaction number.
    pub fn opened(length: u16, transaction_number: u16) -> Self
        ensures { (result.length ≡ length) × (result.transaction_number ≡ transaction_number) × (result.padding ≡ 0) }
    {
        Accepted {
            transaction_number,
            ..Accepted::sized(length)
        }
    }

    // An acceptance with a transaction number.
    pub fn numbered(transaction_number: u16) -> Self
        ensures { (result.length ≡ 0) × (result.transaction_number ≡ transaction_number) × (result.padding ≡ 0) }
    {
        Accepted {
            length: 0,
            transaction_number,
            padding: 0,
        }
    }
}
