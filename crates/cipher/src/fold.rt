// A block encrypted under each key of a slice in turn, and the way back. Bytes after the last whole key play no part.
ghost use Rattle.std.specs.Prelude.{◌≡◌};
ghost use Rattle.cipher.specs.Fips197.{aes_encrypt};
ghost use Rattle.cipher.specs.Fips46.{des_encrypt, des_decrypt};
ghost use Rattle.cipher.specs.Fold.{under_each, under_each_back};

use crate::aes::encrypt_aes128_block;
use crate::des::{decrypt_des_block, encrypt_des_block};

// block encrypted under the first 8 bytes of keys, then under the next, and so on.
pub fn encrypt_des_under_each(block: [u8; 8], keys: &[u8]) -> [u8; 8]
    ensures { result ≡ under_each des_encrypt 8 keys.now block }
{
    let (whole, _) = keys.as_chunks();
    whole.iter().fold(
        block,
        |state, key: &[u8; 8]|
            ensures { result ≡ des_encrypt key.now state }
        { encrypt_des_block(state, *key) },
    )
}

// The way back: block decrypted under the last whole key first.
pub fn decrypt_des_under_each(block: [u8; 8], keys: &[u8]) -> [u8; 8]
    ensures { result ≡ under_each_back des_decrypt 8 keys.now block }
{
    let (whole, _) = keys.as_chunks();
    whole.iter().rev().fold(
        block,
        |state, key: &[u8; 8]|
            ensures { result ≡ des_decrypt key.now state }
        { decrypt_des_block(state, *key) },
    )
}

// The same as encrypt_des_under_each with AES-128 and keys of 16 bytes.
pub fn encrypt_aes128_under_each(block: [u8; 16], keys: &[u8]) -> [u8; 16]
    ensures { result ≡ under_each aes_encrypt 16 keys.now block }
{
    let (whole, _) = keys.as_chunks();
    whole.iter().fold(
        block,
        |state, key: &[u8; 16]|
            ensures { result ≡ aes_encrypt key.now state }
        { encrypt_aes128_block(state, *key) },
    )
}
