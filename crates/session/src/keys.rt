// Key derivation (keys.rs, in its order), and the search of a key list.
ghost use Rattle.std.specs.Prelude.{◌≡◌, true, false, List, [], ◌++◌, ℕ, ◌/◌, ◌<◌, ◌≤◌, ◌≢◌, length, MatchOption, MatchResult, IfOk, IfSome, map};
ghost use Rattle.std.specs.Iterator.{UpTo};
ghost use Rattle.answer.specs.Scheme.{mark_of};
ghost use Rattle.session.specs.Derivation.{des_rows, other, key_length, key_of, lacks, derived, derived_des, derived_aes, target, derive_rows, derivation, with_room, Derives};
ghost use Rattle.session.specs.ServiceCode.{bearing};
ghost use Rattle.session.specs.inner.DerivationSteps.{refusing, Guards, forced_mark, bytes_of, Chooses, Lists, Gathers};
ghost use Rattle.session.specs.Entries.{entry_of, entries, nodes as node_list, is_for, has, looked_at, unknown_algorithm, twice};
ghost use Rattle.session.specs.Search.{searching, Searches};

use crate::types::{Nodes, is_key_free_service};
use answer::{Refusal, Scheme};

const SYSTEM_SERVICE_CODE: u16 = 0xFFFF;

const NODE_KEY_INIT: [u8; 16] =
    *b"\x01\x01\x00\x00\x00\x00\x00\x00\x00\x00\x00\x00\x00\x00\x00\x80";

// What an accepted derivation gives: how many bytes of keys it wrote, and the scheme that they are of.
#[derive(Clone, Copy, Debug, PartialEq, Eq)]
pub struct DerivedAuthKeys {
    pub length: u16,
    pub scheme: Scheme,
}

// What a search for a key found: whether there is an entry of that node and algorithm, and how many entries the search looked at. If there is one, it
// is the last of these, and its key is the 16 bytes of the list from (looked - 1) * 19 + 3 on.
#[derive(Clone, Copy, Debug, PartialEq, Eq)]
pub struct Found {
    pub found: bool,
    pub looked: usize,
}

// Whether a key entry is that of a node and an algorithm.
fn is_for(entry: &[u8; 19], node: u16, algorithm: u8) -> bool
    ensures { result ≡ is_for (entry_of entry.now) node algorithm }
{
    u16::from_le_bytes([entry[0], entry[1]]) == node && entry[2] == algorithm
}

// The entries of a key list: a node, the low byte first, the mark of an algorithm, and the 16 bytes of a key.
#[derive(Drop)]
struct ResolvedNodeKeys<'a> {
    entries: &'a [[u8; 19]],
}

impl<'a> ResolvedNodeKeys<'a> {
    fn from_keys(keys: &'a [u8]) -> Self
        ensures { map entry_of result.entries.now ≡ entries keys.now }
    {
        let (entries, _) = keys.as_chunks();
        ResolvedNodeKeys { entries }
    }

    // The search for a node and a scheme's algorithm. It ends at the first such entry. Nodes and marks are public, and no byte of a key is read, so
    // where it ends tells nothing secret.
    fn find_key(&self, node: u16, scheme: Scheme) -> Found
        ensures { let all = map entry_of self.now.entries.now in (result.found ≡ has all node (mark_of scheme)) × (result.looked ≡ looked_at all node (mark_of scheme)) }
    {
        let algorithm = scheme.mark();
        let mut looked = 0;
        for entry in self.entries {
            looked += 1;
            if is_for(entry, node, algorithm) {
                return Found {
                    found: true,
                    looked,
                };
            }
        }
        Found {
            found: false,
            looked,
        }
    }

    fn has(&self, node: u16, scheme: Scheme) -> bool
        ensures { result ≡ has (map entry_of self.now.entries.now) node (mark_of scheme) }
    {
        self.find_key(node, scheme).found
    }

    fn any_algorithm_unknown(&self) -> bool
        ensures { result ≡ unknown_algorithm (map entry_of self.now.entries.now) }
    {
        self.entries
            .iter()
            .any(|entry| Scheme::try_from(entry[2]).is_err())
    }

    // Whether two keys have the same node and algorithm.
    fn any_twice(&self) -> bool
        ensures { result ≡ twice (map entry_of self.now.entries.now) }
    {
        let mut rest = self.entries;
        while let Some((entry, others)) = rest.split_first() {
            let node = u16::from_le_bytes([entry[0], entry[1]]);
            let algorithm = entry[2];
            if others.iter().any(|other| is_for(other, node, algorithm)) {
                return true;
            }
            rest = others;
        }
        false
    }

    // The key of a node (require_des, require_aes). A node that lacks it is refused: OtherAlgorithm where it has a key of the other algorithm, else
    // KeyMissing.
    fn require(&self, node: u16, scheme: Scheme) -> Result<&'a [u8], Refusal>
        ensures { let all = map entry_of self.now.entries.now in MatchResult result (λ key. (has all node (mark_of scheme) ≡ true) × (key.now ≡ key_of all (mark_of scheme) node) × (length key.now ≡ key_length (mark_of scheme))) (λ e. (has all node (mark_of scheme) ≡ false) × (lacks all node (mark_of scheme) ≡ refusing e)) }
    {
        let search = self.find_key(node, scheme);
        if search.found {
            let key = &self.entries[search.looked - 1][3..19];
            return Ok(&key[..key_length(scheme)]);
        }
        if self.has(node, other_scheme(scheme)) {
            Err(Refusal::OtherAlgorithm)
        } else {
            Err(Refusal::KeyMissing(node))
        }
    }

    // Puts the keys of nodes one behind the other over the front of work; answers how many bytes they are. There is no heap for a list of them.
    fn gather<I: Iterator<Item = u16> + Drop>(
        &self,
        nodes: I,
        scheme: Scheme,
        work: &mut [u8],
    ) -> Result<usize, Refusal>
        requires can { I.can_next nodes }
        requires room { UpTo (I.remaining nodes) (length work.old / 16) }
        ensures within { IfOk result (λ size. size ≤ length work.new) }
        ensures gathered { (ns : List ℕ) → Lists I.next_gives nodes ns → Gathers (map entry_of self.now.entries.now) (mark_of scheme) ns result work.new }
    {
        let mut end = 0;
        for node in nodes {
            let key = self.require(node, scheme)?;
            let start = end;
            end += key.len();
            // a memcpy, as in deliver
            cipher::copy(key, &mut work[start..end]);
        }
        Ok(end)
    }
}

// The derived keys, one behind the other over the front of out.
fn deliver(
    scheme: Scheme,
    first: &[u8],
    second: &[u8],
    out: &mut [u8],
) -> Result<DerivedAuthKeys, Refusal>
    requires first_len_bound { length first.now ≤ 16 }
    requires second_len_bound { length second.now ≤ 16 }
    ensures { Derives (with_room (length out.old) (derived (mark_of scheme) (first.now ++ second.now))) result out.old out.new }
{
    let n = first.len();
    let size = n + second.len();
    if out.len() < size {
        return Err(Refusal::OutputTooSmall);
    }
    // cipher::copy is a memcpy in the archive, copy_from_slice of an unknown length a memmove.
    cipher::copy(first, out);
    cipher::copy(second, &mut out[n..size]);
    Ok(DerivedAuthKeys {
        length: size as u16,
        scheme,
    })
}

// The scheme that a mark forces; none for mark 0.
fn forced_scheme(mark: u8) -> Result<Option<Scheme>, Refusal>
    ensures { MatchResult result (λ forced. forced_mark forced ≡ mark) (λ e. (e ≡ Refusal.BadMarkOrLength) × (2 < mark)) }
{
    match mark {
        0 => Ok(None),
        _ => Ok(Some(Scheme::try_from(mark)?)),
    }
}

// An individual key; none where it is absent.
fn individual_key(individual: &[u8]) -> Result<Option<[u8; 16]>, Refusal>
    ensures { MatchResult result (λ key. bytes_of key ≡ individual.now) (λ e. (e ≡ Refusal.BadMarkOrLength) × (length individual.now ≢ 0) × (length individual.now ≢ 16)) }
{
    match individual.len() {
        0 => Ok(None),
        _ => Ok(Some(answer::exact::<16>(individual)?)),
    }
}

// Searches a key list for the entry of a node and an algorithm. That there is none is an acceptance.
pub fn search_key(keys: &[u8], node: u16, algorithm: u8) -> Result<Found, Refusal>
    ensures { Searches (searching keys.now node algorithm) algorithm result }
{
    let scheme = Scheme::try_from(algorithm)?;
    if keys.len() % 19 != 0 {
        return Err(Refusal::BadMarkOrLength);
    }
    let keys = ResolvedNodeKeys::from_keys(keys);
    if 128 < keys.entries.len() {
        return Err(Refusal::TooManyEntries);
    }
    Ok(keys.find_key(node, scheme))
}

// Derives the keys of an authentication. With mark 0 the target's keys choose the scheme, as in the Rust's derive_auth_keys; 1 and 2 force DES
// and AES, as its derive_auth_keys_with_scheme does.
pub fn derive_auth_keys(
    mark: u8,
    keys: &[u8],
    areas: &[u8],
    services: &[u8],
    individual: &[u8],
    out: &mut [u8],
) -> Result<DerivedAuthKeys, Refusal>
    ensures { Derives (derivation mark keys.now areas.now services.now individual.now (length out.old)) result out.old out.new }
{
    let inputs = Inputs::new(mark, keys, areas, services, individual)?;
    match inputs.choose_scheme()? {
        Scheme::Des => inputs.derive_des(out),
        Scheme::Aes128 => inputs.derive_aes128(out),
    }
}

// What a derivation is given: the scheme that is forced, the lists, and the individual key. No list is too long.
#[derive(Drop)]
struct Inputs<'a> {
    forced: Option<Scheme>,
    keys: ResolvedNodeKeys<'a>,
    areas: &'a [u8],
    services: &'a [u8],
    individual: Option<[u8; 16]>,
    ghost few: { (length areas.now / 2 ≤ 32) × (length services.now / 2 ≤ 32) },
    ghost own: { ∥ IfSome individual (λ key. length key ≡ 16) ∥₁ },
}

impl<'a> Inputs<'a> {
    // A mark, a length or an algorithm that is wrong refuses first, then lists that are too long, then a key that stands twice.
    fn new(
        mark: u8,
        keys: &'a [u8],
        areas: &'a [u8],
        services: &'a [u8],
        individual: &[u8],
    ) -> Result<Inputs<'a>, Refusal>
        ensures guards { Guards (derive_rows mark keys.now areas.now services.now individual.now) result }
        ensures given { IfOk result (λ inputs. (forced_mark inputs.forced ≡ mark) × (map entry_of inputs.keys.entries.now ≡ entries keys.now) × (inputs.areas.now ≡ areas.now) × (inputs.services.now ≡ services.now) × (bytes_of inputs.individual ≡ individual.now)) }
    {
        let forced = forced_scheme(mark)?;
        let individual = individual_key(individual)?;
        if keys.len() % 19 != 0 || areas.len() % 2 != 0 || services.len() % 2 != 0 {
            return Err(Refusal::BadMarkOrLength);
        }
        let keys = ResolvedNodeKeys::from_keys(keys);
        if keys.any_algorithm_unknown() {
            return Err(Refusal::BadMarkOrLength);
        }
        if 128 < keys.entries.len() || 32 < areas.len() / 2 || 32 < services.len() / 2 {
            return Err(Refusal::TooManyEntries);
        }
        if keys.any_twice() {
            return Err(Refusal::SameKeyTwice);
        }
        Ok(Inputs {
            forced,
            keys,
            areas,
            services,
            individual,
        })
    }

    // The last service that is not key-free, else the last service, else the last area.
    fn target_node(&self) -> Option<u16>
        ensures { MatchOption result (length (node_list self.now.areas.now ++ node_list self.now.services.now) ≡ 0) (λ t. (length (node_list self.now.areas.now ++ node_list self.now.services.now) ≢ 0) × (t ≡ target (node_list self.now.areas.now) (node_list self.now.services.now))) }
    {
        let area = Nodes::of(self.areas).last();
        let service = Nodes::of(self.services).last();
        let keyed = Nodes::of(self.services)
            .filter(|service| !is_key_free_service(*service))
            .last();
        keyed.or(service).or(area)
    }

    // The scheme by which a derivation goes on: the forced one, else that of the target's key, AES before DES.
    fn choose_scheme(&self) -> Result<Scheme, Refusal>
        ensures { Chooses (forced_mark self.now.forced) (map entry_of self.now.keys.entries.now) (node_list self.now.areas.now) (node_list self.now.services.now) result }
    {
        if let Some(scheme) = self.forced {
            return Ok(scheme);
        }
        let node = self.target_node().ok_or(Refusal::NoNodes)?;
        if self.keys.has(node, Scheme::Aes128) {
            return Ok(Scheme::Aes128);
        }
        if self.keys.has(node, Scheme::Des) {
            return Ok(Scheme::Des);
        }
        Err(Refusal::KeyMissing(node))
    }

    // What DES refuses of them: an individual key, no area, no service that bears a key.
    fn check_des(&self) -> Result<(), Refusal>
        ensures { Guards (des_rows (length (bytes_of self.now.individual)) (length (node_list self.now.areas.now)) (length (bearing (node_list self.now.services.now)))) result }
    {
        if self.individual.is_some() {
            return Err(Refusal::IndividualKeyWithDes);
        }
        if self.areas.len() < 2 {
            return Err(Refusal::DesWithoutArea);
        }
        if Nodes::of(self.services).all(is_key_free_service) {
            return Err(Refusal::DesWithoutKeyedService);
        }
        Ok(())
    }

    fn derive_des(&self, out: &mut [u8]) -> Result<DerivedAuthKeys, Refusal>
        ensures { Derives (with_room (length out.old) (derived_des (map entry_of self.now.keys.entries.now) (node_list self.now.areas.now) (node_list self.now.services.now) (bytes_of self.now.individual))) result out.old out.new }
    {
        self.check_des()?;
        let system = self.keys.require(SYSTEM_SERVICE_CODE, Scheme::Des)?;
        // every key is looked up before the first is used, so that no cipher runs for a derivation that is refused
        let mut work = [0u8; 512];
        let mut keyed_work = [0u8; 512];
        let areas = self
            .keys
            .gather(Nodes::of(self.areas), Scheme::Des, &mut work)?;
        let keyed = Nodes::of(self.services).filter(|service| !is_key_free_service(*service));
        let services = self.keys.gather(keyed, Scheme::Des, &mut keyed_work)?;
        let group = cipher::encrypt_des_under_each(answer::fit(system), &work[..areas]);
        let user = cipher::encrypt_des_under_each(group, &keyed_work[..services]);
        deliver(Scheme::Des, &group, &user, out)
    }

    fn derive_aes128(&self, out: &mut [u8]) -> Result<DerivedAuthKeys, Refusal>
        ensures { Derives (with_room (length out.old) (derived_aes (map entry_of self.now.keys.entries.now) (node_list self.now.areas.now) (node_list self.now.services.now) (bytes_of self.now.individual))) result out.old out.new }
    {
        let mut work = [0u8; 1024];
        let size = self.keys.gather(
            Nodes::of(self.areas).chain(Nodes::of(self.services)),
            Scheme::Aes128,
            &mut work,
        )?;
        if size == 0 {
            return Err(Refusal::NoNodes);
        }
        let group = cipher::encrypt_aes128_under_each(NODE_KEY_INIT, &work[..size]);
        let own = self.individual.unwrap_or([0u8; 16]);
        deliver(Scheme::Aes128, &group, &own, out)
    }
}

fn other_scheme(scheme: Scheme) -> Scheme
    ensures { mark_of result ≡ other (mark_of scheme) }
{
    match scheme {
        Scheme::Des => Scheme::Aes128,
        Scheme::Aes128 => Scheme::Des,
    }
}

// How many of an entry's 16 key bytes a scheme uses.
fn key_length(scheme: Scheme) -> usize
    ensures { (result ≡ key_length (mark_of scheme)) × (result ≤ 16) }
{
    match scheme {
        Scheme::Des => 8,
        Scheme::Aes128 => 16,
    }
}
