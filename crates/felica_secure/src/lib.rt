// The C interface: every exported function of the library (include/felica_secure.h), over the crates below. An archive holds the exports of
// one crate, so those of all crates stand here. Each function passes its arguments on, and packs the answer into one number of 64 bits. C needs a
// function of its own name for each operation, so many of them differ in the function that they call alone.
#![tactic(auto)]

mod challenge;
mod frames;
mod keys;
mod pack;
mod sessions;
