// OFB (SP 800-38A, 6.4) over AES-128, in place.
ghost use Rattle.std.specs.Prelude.{◌≡◌, ◌++◌, ◌+◌, ◌≤◌, length, take, drop};
ghost use Rattle.cipher.specs.Bytes.{◌⊕◌};
ghost use Rattle.cipher.specs.Fips197.{aes_encrypt, cipher};
ghost use Rattle.cipher.specs.Sp80038a.{ofb, ofb_input, blocks};

use crate::aes::KeySchedule;
use crate::bytes;

// Adds an output block to the bytes of s from index at on, as far as both reach.
fn add_at(s: &mut [u8], at: usize, output: [u8; 16])
    requires { at ≤ length s.old }
    ensures { s.new ≡ take at s.old ++ (take 16 (drop at s.old) ⊕ output) ++ drop (at + 16) s.old }
{
    bytes::xor_into(&mut s[at..], &output);
}

// Goes through data and returns the input block of the block that would come next.
fn apply(data: &mut [u8], keys: &KeySchedule, iv: [u8; 16]) -> [u8; 16]
    ensures data_after { «data».new ≡ ofb (cipher keys.now) 16 iv «data».old }
    ensures next_input { result ≡ ofb_input (cipher keys.now) 16 (blocks 16 (length «data».old)) iv }
{
    let mut input = iv;
    // data goes by index, since std says nothing of what a loop over chunks_mut wrote.
    for at in (0..data.len()).step_by(16) {
        let output = keys.encrypt_block(input);
        add_at(data, at, output);
        input = output;
    }
    input
}

// Encrypts or decrypts data in place, whatever its length.
pub fn apply_aes128_ofb(data: &mut [u8], key: [u8; 16], iv: [u8; 16])
    ensures { «data».new ≡ ofb (aes_encrypt key) 16 iv «data».old }
{
    let keys = KeySchedule::new(key);
    apply(data, &keys, iv);
}

// The same for two parts, of which the second starts at a block boundary: what is left of the first part's last block is skipped.
pub fn apply_aes128_ofb_parts(first: &mut [u8], second: &mut [u8], key: [u8; 16], iv: [u8; 16])
    ensures first_after { first.new ≡ ofb (aes_encrypt key) 16 iv first.old }
    ensures second_after { second.new ≡ ofb (aes_encrypt key) 16 (ofb_input (aes_encrypt key) 16 (blocks 16 (length first.old)) iv) second.old }
{
    let keys = KeySchedule::new(key);
    let next = apply(first, &keys, iv);
    apply(second, &keys, next);
}
