// Block ciphers and modes, from the standards: AES-128 (FIPS 197), DES and triple DES (FIPS 46-3), CBC and OFB (SP 800-38A),
// CMAC (SP 800-38B). Nothing of FeliCa stands here. No public function asks anything of its caller.
#![tactic(auto)]

mod aes;
mod bytes;
mod cbc;
mod cmac;
mod des;
mod fold;
mod ofb;

pub use aes::{decrypt_aes128_block, encrypt_aes128_block};
pub use bytes::{copy, ct_eq, fill, xor_blocks};
pub use cbc::{PartialBlock, decrypt_des_cbc_zero_iv, encrypt_des_cbc_zero_iv};
pub use cmac::{aes128_cmac, aes128_cmac_after_block};
pub use des::{decrypt_3des_block, decrypt_des_block, encrypt_3des_block, encrypt_des_block};
pub use fold::{decrypt_des_under_each, encrypt_aes128_under_each, encrypt_des_under_each};
pub use ofb::{apply_aes128_ofb, apply_aes128_ofb_parts};
