// The vocabulary in which frames, sessions and all later crates state what a call answers: the acceptance, the refusals and their numbers, the
// scheme marks, the delivery of bytes over the front of an output, byte strings of fixed lengths, numbers in two bytes. No public function asks
// anything of its caller.
#![tactic(auto)]

mod answer;
mod delivery;
mod fixed;
mod number;
mod refusal;
mod scheme;

pub use answer::{Accepted, Answer};
pub use delivery::deliver;
pub use fixed::{exact, fit};
pub use number::transaction_number;
pub use refusal::Refusal;
pub use scheme::{AES128, DES, Scheme};
