// The last step of a call that writes.
ghost use Rattle.std.specs.Prelude.{length};
ghost use Rattle.answer.specs.Delivery.{handing, Delivers};
ghost use Rattle.answer.specs.Outcome.{acceptance};

use crate::{Accepted, Answer, Refusal};

// Copies payload over the front of out, where it has room. An opening has a transaction number and a sealing its padding; what is neither, as a
// challenge, has 0 for both. An answer's length has 16 bits: of a longer payload it has the lowest 16.
pub fn deliver(transaction_number: u16, padding: u8, payload: &[u8], out: &mut [u8]) -> Answer
    ensures { Delivers (handing (acceptance transaction_number padding payload.now) (length out.old)) result out.old out.new }
{
    if out.len() < payload.len() {
        return Err(Refusal::OutputTooSmall);
    }
    cipher::copy(payload, out);
    Ok(Accepted {
        length: (payload.len() % 65536) as u16,
        transaction_number,
        padding,
    })
}
