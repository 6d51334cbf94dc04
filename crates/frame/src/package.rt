// Registration packages (the end of des.rs). A package may have 4,104 bytes, so it is made in the caller's output,
// and an output that is too small is found first. Both functions below ask for a whole block at least: their caller refuses an empty package.
ghost use Rattle.std.specs.Prelude.{◌≡◌, ◌+◌, ◌%◌, ◌≤◌, length};
ghost use Rattle.answer.specs.Outcome.{Meets, over};
ghost use Rattle.frame.specs.Package.{package_cipher, package_mac, packaged, packaging};

use answer::{Accepted, Answer, Refusal};

// The longest plain package.
const PACKAGE_MAX: usize = 4096;

// The last CBC block under the complemented key. out holds the cipher text meanwhile.
fn package_mac(key: [u8; 8], plain: &[u8], out: &mut [u8]) -> [u8; 8]
    requires plain_len { length plain.now % 8 ≡ 0 }
    requires in_bounds { 8 ≤ length plain.now }
    requires plain_in_bounds { length plain.now ≤ length out.old }
    ensures { (result ≡ package_mac key plain.now) × (length (package_cipher key plain.now) ≡ length plain.now) × (out.new ≡ over (package_cipher key plain.now) out.old) }
{
    let n = plain.len();
    cipher::copy(plain, out);
    cipher::encrypt_des_cbc_zero_iv(&mut out[..n], cipher::xor_blocks(key, [255u8; 8])).unwrap();
    answer::fit(&out[n - 8..n])
}

// Writes a registration package over the front of out, and answers its size.
fn write_package(key: [u8; 8], plain: &[u8], out: &mut [u8]) -> usize
    requires plain_len { length plain.now % 8 ≡ 0 }
    requires in_bounds { 8 ≤ length plain.now }
    requires plain_in_bounds { length plain.now + 8 ≤ length out.old }
    ensures { (result ≡ length plain.now + 8) × (result ≡ length (packaged key plain.now)) × (out.new ≡ over (packaged key plain.now) out.old) }
{
    let n = plain.len();
    let size = n + 8;
    let mac = package_mac(key, plain, out);
    cipher::copy(plain, out);
    out[n..size].copy_from_slice(&mac);
    cipher::encrypt_des_cbc_zero_iv(&mut out[..size], key).unwrap();
    size
}

// The registration package of a plain package under the package key.
pub fn generate_registration_package_des(key: &[u8], plain: &[u8], out: &mut [u8]) -> Answer
    ensures { Meets (packaging key.now plain.now (length out.old)) result out.old out.new }
{
    let key = answer::exact::<8>(key)?;
    let n = plain.len();
    if n == 0 || n % 8 != 0 {
        return Err(Refusal::NotWholeBlocks);
    }
    if PACKAGE_MAX < n {
        return Err(Refusal::TooLong);
    }
    if out.len() < n + 8 {
        return Err(Refusal::OutputTooSmall);
    }
    let length = write_package(key, plain, out);
    Ok(Accepted::sized(length as u16))
}
