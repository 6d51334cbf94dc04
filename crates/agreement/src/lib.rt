// Statement 3: a reader and a card with the same inputs agree (specs/Agreement, proofs/Statement3); and in code, both ends played through the
// public functions, with everything that they say to each other as the output. The one public function asks nothing of its caller.
#![tactic(auto)]

mod transcript;

pub use transcript::play;
