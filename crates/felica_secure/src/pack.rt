// Answers as C gets them: one number of 64 bits (specs/Packed).
ghost use Rattle.std.specs.Prelude.{◌≡◌, MatchResult};
ghost use Rattle.answer.specs.Outcome.{answer_number, answer_length, answer_transaction, answer_padding, choose};
ghost use Rattle.answer.specs.Refusal.{refusal_number};
ghost use Rattle.felica_secure.specs.Packed.{packed, packed_sealed};

use answer::{Answer, Refusal};

// Number, scheme mark or algorithm, length or count, and a transaction number or a node, as C gets them.
pub(crate) fn pack_all(number: u8, scheme: u8, length: u16, value: u16) -> u64
    ensures { result ≡ packed number scheme length value }
{
    let [l0, l1] = length.to_le_bytes();
    let [v0, v1] = value.to_le_bytes();
    u64::from_le_bytes([number, scheme, l0, l1, v0, v1, 0, 0])
}

// An answer as C gets it.
pub(crate) fn pack(answer: Answer) -> u64
    ensures { result ≡ packed_sealed (answer_number answer) 0 (answer_length answer) (answer_transaction answer) (answer_padding answer) }
{
    match answer {
        Ok(accepted) => {
            let padding = u64::from(accepted.padding) * 0x1_0000_0000_0000;
            pack_all(0, 0, accepted.length, accepted.transaction_number) + padding
        }
        Err(refusal) => pack_all(refusal.number(), 0, 0, 0),
    }
}

// The answer of a check, as C gets it: 0 where the block is the one wanted, else 13, the number of MacDiffers. A product, since the compiler made
// a jump, which depends on secrets, where a difference was an `Err`.
pub(crate) fn pack_check(check: Result<bool, Refusal>) -> u64
    ensures { MatchResult check (λ equal. result ≡ choose equal 0 13) (λ e. result ≡ refusal_number e) }
{
    match check {
        Ok(equal) => u64::from(!equal) * u64::from(Refusal::MacDiffers.number()),
        Err(refusal) => pack_all(refusal.number(), 0, 0, 0),
    }
}
