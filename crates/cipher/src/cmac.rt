// CMAC (SP 800-38B) over AES-128.
ghost use Rattle.std.specs.Prelude.{◌≡◌, [], ◌∷◌, ◌++◌, ◌+◌, ◌-◌, ◌*◌, ◌/◌, ◌%◌, ◌≤◌, ◌<◌, length, drop, get_or, replicate};
ghost use Rattle.cipher.specs.Fips197.{aes_encrypt, cipher};
ghost use Rattle.cipher.specs.Sp80038a.{blocks};
ghost use Rattle.cipher.specs.Sp80038b.{shift_left, double, last_block, mac_from, cmac, R128};

use crate::aes::KeySchedule;
use crate::bytes;

// The next subkey (6.1): one bit to the left, with R128 where the highest bit is set.
fn double(x: &[u8; 16]) -> [u8; 16]
    ensures { result ≡ double 16 R128 x.now }
{
    let n = u128::from_be_bytes(*x);
    ((n << 1) ^ (n >> 127) * 0x87).to_be_bytes()
}

// The bytes of s, a byte 0x80, and zeros.
fn padded(s: &[u8]) -> [u8; 16]
    requires { length s.now < 16 }
    ensures { result ≡ s.now ++ 128 ∷ replicate (15 - length s.now) 0 }
{
    let mut block = [0u8; 16];
    bytes::copy(s, &mut block);
    block[s.len()] = 0x80;
    block
}

// The last block as it goes into the cipher (6.2, step 4).
fn last_block(keys: &KeySchedule, s: &[u8]) -> [u8; 16]
    requires { length s.now ≤ 16 }
    ensures { result ≡ last_block (cipher keys.now) 16 R128 (16 - length s.now) s.now }
{
    let l = keys.encrypt_block([0; 16]);
    let k1 = double(&l);
    match s.first_chunk() {
        Some(whole) => bytes::xor_blocks(k1, *whole),
        None => {
            let k2 = double(&k1);
            bytes::xor_blocks(k2, padded(s))
        }
    }
}

// The MAC from the state start on (6.2, steps 5 and 6): each block but the last goes in as it is.
fn mac_from(keys: &KeySchedule, start: [u8; 16], s: &[u8]) -> [u8; 16]
    ensures { result ≡ mac_from (cipher keys.now) 16 R128 start (blocks 16 (length s.now) - 1) s.now }
{
    let (front, last) = s.split_at(s.len().saturating_sub(1) / 16 * 16);
    let (blocks, _) = front.as_chunks::<16>();
    let mut state = start;
    for block in blocks {
        state = keys.encrypt_block(bytes::xor_blocks(state, *block));
    }
    keys.encrypt_block(bytes::xor_blocks(state, last_block(keys, last)))
}

// The MAC of data.
pub fn aes128_cmac(data: &[u8], key: [u8; 16]) -> [u8; 16]
    ensures { result ≡ cmac (aes_encrypt key) 16 R128 «data».now }
{
    let keys = KeySchedule::new(key);
    mac_from(&keys, [0; 16], data)
}

// The MAC of a block followed by data.
pub fn aes128_cmac_after_block(first: [u8; 16], data: &[u8], key: [u8; 16]) -> [u8; 16]
    ensures { result ≡ cmac (aes_encrypt key) 16 R128 (first ++ «data».now) }
{
    let keys = KeySchedule::new(key);
    if data.is_empty() {
        return mac_from(&keys, [0; 16], &first);
    }
    let state = keys.encrypt_block(first);
    mac_from(&keys, state, data)
}
