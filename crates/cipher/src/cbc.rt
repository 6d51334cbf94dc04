// CBC with a zero IV (SP 800-38A, 6.2) over DES, in place. Blocks are read and written at an index: std says nothing of a slice's elements after
// `chunks_exact_mut`. Each direction has its own loop: closures of one loop would need clauses of their own, and that loop one over any two
// functions.
ghost use Rattle.std.specs.Prelude.{◌≡◌, replicate};
ghost use Rattle.cipher.specs.Fips46.{des_encrypt, des_decrypt};
ghost use Rattle.cipher.specs.Sp80038a.{cbc_encrypt, cbc_decrypt, whole, on_whole};
ghost use Rattle.std.specs.Result.{is_ok};

use crate::bytes;
use crate::des::KeySchedule;

// Why CBC left data as it is: it was not a whole number of blocks.
#[derive(Clone, Copy, Debug, PartialEq, Eq)]
pub struct PartialBlock;

// Encrypts data in place; what is not a whole number of blocks stays as it is.
pub fn encrypt_des_cbc_zero_iv(data: &mut [u8], key: [u8; 8]) -> Result<(), PartialBlock>
    ensures ok { is_ok result ≡ whole 8 «data».old }
    ensures after { «data».new ≡ on_whole 8 (cbc_encrypt (des_encrypt key) 8 (replicate 8 0)) «data».old }
{
    if data.len() % 8 != 0 {
        return Err(PartialBlock);
    }
    let keys = KeySchedule::new(key);
    let mut before = [0u8; 8];
    for at in (0..data.len()).step_by(8) {
        let plain = bytes::load(data, at);
        let output = keys.encrypt(bytes::xor_blocks(plain, before));
        bytes::store(data, at, &output);
        before = output;
    }
    Ok(())
}

// Decrypts data in place; what is not a whole number of blocks stays as it is.
pub fn decrypt_des_cbc_zero_iv(data: &mut [u8], key: [u8; 8]) -> Result<(), PartialBlock>
    ensures ok { is_ok result ≡ whole 8 «data».old }
    ensures after { «data».new ≡ on_whole 8 (cbc_decrypt (des_decrypt key) 8 (replicate 8 0)) «data».old }
{
    if data.len() % 8 != 0 {
        return Err(PartialBlock);
    }
    let keys = KeySchedule::new(key);
    let mut before = [0u8; 8];
    for at in (0..data.len()).step_by(8) {
        let sealed = bytes::load(data, at);
        let output = keys.decrypt(sealed);
        bytes::store(data, at, &bytes::xor_blocks(output, before));
        before = sealed;
    }
    Ok(())
}
