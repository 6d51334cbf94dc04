// The operations of `cipher` as C functions, for the benchmark. Each copies its keys and its block to arrays, calls one function of `cipher` and
// copies the result back; a slice that is shorter than a key or a block stands for itself followed by zeros. C needs a function of
// its own name for each operation.
#![tactic(auto)]

ghost use Rattle.std.specs.Prelude.{◌≡◌, replicate};
ghost use Rattle.answer.specs.Fixed.{fit};
ghost use Rattle.bench.specs.Parts.{flag, over};
ghost use Rattle.cipher.specs.Fips197.{aes_decrypt, aes_encrypt};
ghost use Rattle.cipher.specs.Fips46.{des_decrypt, des_encrypt, tdea2_encrypt};
ghost use Rattle.cipher.specs.Fold.{under_each, under_each_back};
ghost use Rattle.cipher.specs.Sp80038a.{cbc_decrypt, cbc_encrypt, ofb, on_whole, whole};
ghost use Rattle.cipher.specs.Sp80038b.{R128, cmac};

use answer::fit;

// AES-128, one block: the key schedule and the cipher.
#[unsafe(no_mangle)]
pub extern "C" fn hernotxak_bench_aes128_encrypt(key: &[u8], block: &mut [u8])
    ensures { block.new ≡ over (aes_encrypt (fit 16 key.now) (fit 16 block.old)) block.old }
{
    let output = cipher::encrypt_aes128_block(fit(block), fit(key));
    cipher::copy(&output, block);
}

// AES-128, one block back.
#[unsafe(no_mangle)]
pub extern "C" fn hernotxak_bench_aes128_decrypt(key: &[u8], block: &mut [u8])
    ensures { block.new ≡ over (aes_decrypt (fit 16 key.now) (fit 16 block.old)) block.old }
{
    let output = cipher::decrypt_aes128_block(fit(block), fit(key));
    cipher::copy(&output, block);
}

// DES, one block: the key schedule and the cipher.
#[unsafe(no_mangle)]
pub extern "C" fn hernotxak_bench_des_encrypt(key: &[u8], block: &mut [u8])
    ensures { block.new ≡ over (des_encrypt (fit 8 key.now) (fit 8 block.old)) block.old }
{
    let output = cipher::encrypt_des_block(fit(block), fit(key));
    cipher::copy(&output, block);
}

// DES, one block back.
#[unsafe(no_mangle)]
pub extern "C" fn hernotxak_bench_des_decrypt(key: &[u8], block: &mut [u8])
    ensures { block.new ≡ over (des_decrypt (fit 8 key.now) (fit 8 block.old)) block.old }
{
    let output = cipher::decrypt_des_block(fit(block), fit(key));
    cipher::copy(&output, block);
}

// Triple DES with two keys, one block: both key schedules and the cipher.
#[unsafe(no_mangle)]
pub extern "C" fn hernotxak_bench_tdes2_encrypt(key1: &[u8], key2: &[u8], block: &mut [u8])
    ensures { block.new ≡ over (tdea2_encrypt (fit 8 key1.now) (fit 8 key2.now) (fit 8 block.old)) block.old }
{
    let output = cipher::encrypt_3des_block(fit(block), fit(key1), fit(key2));
    cipher::copy(&output, block);
}

// DES in CBC with a zero IV, in place. 1, or 0 for what is not a whole number of blocks, which stays.
#[unsafe(no_mangle)]
pub extern "C" fn hernotxak_bench_des_cbc_encrypt(key: &[u8], text: &mut [u8]) -> u8
    ensures { (result ≡ flag (whole 8 text.old)) × (text.new ≡ on_whole 8 (cbc_encrypt (des_encrypt (fit 8 key.now)) 8 (replicate 8 0)) text.old) }
{
    u8::from(cipher::encrypt_des_cbc_zero_iv(text, fit(key)).is_ok())
}

// The way back, likewise.
#[unsafe(no_mangle)]
pub extern "C" fn hernotxak_bench_des_cbc_decrypt(key: &[u8], text: &mut [u8]) -> u8
    ensures { (result ≡ flag (whole 8 text.old)) × (text.new ≡ on_whole 8 (cbc_decrypt (des_decrypt (fit 8 key.now)) 8 (replicate 8 0)) text.old) }
{
    u8::from(cipher::decrypt_des_cbc_zero_iv(text, fit(key)).is_ok())
}

// AES-128 in OFB, in place.
#[unsafe(no_mangle)]
pub extern "C" fn hernotxak_bench_aes128_ofb(key: &[u8], iv: &[u8], text: &mut [u8])
    ensures { text.new ≡ ofb (aes_encrypt (fit 16 key.now)) 16 (fit 16 iv.now) text.old }
{
    cipher::apply_aes128_ofb(text, fit(key), fit(iv));
}

// The CMAC of text with AES-128, written over the front of mac.
#[unsafe(no_mangle)]
pub extern "C" fn hernotxak_bench_aes128_cmac(key: &[u8], text: &[u8], mac: &mut [u8])
    ensures { mac.new ≡ over (cmac (aes_encrypt (fit 16 key.now)) 16 R128 text.now) mac.old }
{
    let output = cipher::aes128_cmac(text, fit(key));
    cipher::copy(&output, mac);
}

// One block under each DES key of a slice in turn.
#[unsafe(no_mangle)]
pub extern "C" fn hernotxak_bench_des_under_each(keys: &[u8], block: &mut [u8])
    ensures { block.new ≡ over (under_each des_encrypt 8 keys.now (fit 8 block.old)) block.old }
{
    let output = cipher::encrypt_des_under_each(fit(block), keys);
    cipher::copy(&output, block);
}

// The way back.
#[unsafe(no_mangle)]
pub extern "C" fn hernotxak_bench_des_under_each_back(keys: &[u8], block: &mut [u8])
    ensures { block.new ≡ over (under_each_back des_decrypt 8 keys.now (fit 8 block.old)) block.old }
{
    let output = cipher::decrypt_des_under_each(fit(block), keys);
    cipher::copy(&output, block);
}
