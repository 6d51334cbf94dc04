// Key derivation, and the search of a key list, as C functions. Callers pass numbers and byte slices.
ghost use Rattle.std.specs.Prelude.{◌≡◌, length};
ghost use Rattle.felica_secure.specs.Packed.{packed, ReturnsDerived};
ghost use Rattle.session.specs.Derivation.{derivation};
ghost use Rattle.session.specs.Search.{searching};

use crate::pack;

// Derives the keys of an authentication: group and user key for DES, group and individual key for AES.
#[unsafe(no_mangle)]
pub extern "C" fn felica_derive_auth_keys(
    mark: u8,
    keys: &[u8],
    areas: &[u8],
    services: &[u8],
    individual: &[u8],
    out: &mut [u8],
) -> u64
    ensures { ReturnsDerived (derivation mark keys.now areas.now services.now individual.now (length out.old)) result out.old out.new }
{
    match session::derive_auth_keys(mark, keys, areas, services, individual, out) {
        Ok(derived) => pack::pack_all(0, derived.scheme.mark(), derived.length, 0),
        Err(refusal) => pack::pack_all(refusal.number(), 0, 0, refusal.node().unwrap_or(0)),
    }
}

// Searches a key list for the entry of a node and an algorithm. The answer has the algorithm if the entry is there, and how many entries were looked
// at.
#[unsafe(no_mangle)]
pub extern "C" fn felica_search_key(keys: &[u8], node: u16, algorithm: u8) -> u64
    ensures { let s = searching keys.now node algorithm in result ≡ packed s.number s.algorithm s.looked 0 }
{
    match session::search_key(keys, node, algorithm) {
        Ok(search) => {
            let mark = if search.found { algorithm } else { 0 };
            pack::pack_all(0, mark, search.looked as u16, 0)
        }
        Err(refusal) => pack::pack(Err(refusal)),
    }
}
