// Runs the published vectors in data/ through the functions of `cipher`, and prints a table.
//
// There is a file for each set. Its first line says what the vectors are and where they are published, a line that starts with '#' is a comment,
// and each other line is a vector: four byte strings in hex, parted by single blanks, with '-' for the empty one (vector.rt says what they are).
// A vector agrees where every direction gives every byte.
//
// The table is that of crate `textfile`.
#![tactic(auto)]

mod vector;

use vector::{Aes, Cbc, Cmac, Des, Ofb, Tdes};

// The files of those sets that have several.
static AES: [&str; 6] = [
    "aes_fips197.txt",
    "aes_gfsbox.txt",
    "aes_keysbox.txt",
    "aes_varkey.txt",
    "aes_vartxt.txt",
    "aes_mmt.txt",
];

static DES: [&str; 6] = [
    "des_vartext.txt",
    "des_varkey.txt",
    "des_invperm.txt",
    "des_permop.txt",
    "des_subtab.txt",
    "des_mmt.txt",
];

static CBC: [&str; 6] = [
    "cbc_vartext.txt",
    "cbc_varkey.txt",
    "cbc_invperm.txt",
    "cbc_permop.txt",
    "cbc_subtab.txt",
    "cbc_mmt.txt",
];

static OFB: [&str; 7] = [
    "ofb_sp800_38a.txt",
    "ofb_part.txt",
    "ofb_gfsbox.txt",
    "ofb_keysbox.txt",
    "ofb_varkey.txt",
    "ofb_vartxt.txt",
    "ofb_mmt.txt",
];

fn main(rt: HostRuntime) {
    textfile::print_head(&rt);
    let mut all = vector::run(&rt, &AES, Aes);
    all += vector::run(&rt, &DES, Des);
    all += vector::run(&rt, &["tdes_mmt.txt"], Tdes);
    all += vector::run(&rt, &CBC, Cbc);
    all += vector::run(&rt, &OFB, Ofb);
    all += vector::run(&rt, &["cmac_sp800_38b.txt"], Cmac);
    textfile::print_sum(&rt, all);
}
