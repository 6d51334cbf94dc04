// The session after authentication (AuthenticatedContext of mod.rs).
ghost use Rattle.std.specs.Prelude.{◌≡◌, ◌*◌, ◌<◌, ◌≤◌, length, take, MatchOption};
ghost use Rattle.answer.specs.Outcome.{Meets};
ghost use Rattle.answer.specs.Refusal.{refusal_number};
ghost use Rattle.session.specs.Session.{ceiling_none, Makes, with_number, StepsTo, Steps, counting, listed_count, first_place, index, Receives, receiving, credentials_size, credentials_of};
ghost use Rattle.frame.specs.Scheme.{sealing, opening};
ghost use Rattle.session.specs.Entries.{nodes as node_list};
ghost use Rattle.session.specs.Record.{encode, decode};

use answer::{Accepted, Answer, Refusal, Scheme};

const NODES_MAX: u16 = 64;

// The ceiling of a session that is made without one: no number of 16 bits is above it.
pub const CEILING_NONE: u16 = 0xFFFF;

// The first byte of a session's bytes.
const VERSION: u8 = 2;

// At or above the ceiling the number does not step. nodes has node_count nodes of two bytes each, the low byte first. A DES session key is the first
// 8 bytes of credentials. A mark that is a number, arrays that hold the most and a count beside them: any 180 bytes decode to a session, and nothing
// allocates.
#[derive(Clone, Copy)]
pub struct AuthenticatedContext {
    transaction_number: u16,
    transaction_id: [u8; 6],
    scheme: u8,
    credentials: [u8; 36],
    nodes: [u8; 128],
    node_count: u16,
    turned_away: u16,
    ceiling: u16,
}

// How many bytes of credentials a scheme has.
fn credentials_size(scheme: u8) -> usize
    ensures { result ≡ credentials_size scheme }
{
    if scheme == frame::DES { 8 } else { 36 }
}

impl AuthenticatedContext {
    // Makes a session with its number, its transaction ID, its credentials and at most 64 nodes. Its ceiling is 0xFFFF.
    pub fn new(
        scheme: u8,
        number: u16,
        id: &[u8],
        credentials: &[u8],
        nodes: &[u8],
    ) -> Result<AuthenticatedContext, Refusal>
        ensures { Makes ceiling_none scheme number id.now credentials.now nodes.now result }
    {
        AuthenticatedContext::new_with_ceiling(scheme, number, CEILING_NONE, id, credentials, nodes)
    }

    // Makes one with a ceiling: from there on the number does not step. It may start at or above it.
    pub fn new_with_ceiling(
        scheme: u8,
        number: u16,
        ceiling: u16,
        id: &[u8],
        credentials: &[u8],
        nodes: &[u8],
    ) -> Result<AuthenticatedContext, Refusal>
        ensures { Makes ceiling scheme number id.now credentials.now nodes.now result }
    {
        Scheme::try_from(scheme)?;
        // lengths alone: an ID that came through a Result would be read in pieces, which is slower
        if id.len() != 6 || credentials.len() != credentials_size(scheme) || nodes.len() % 2 != 0 {
            return Err(Refusal::BadMarkOrLength);
        }
        if 128 < nodes.len() {
            return Err(Refusal::TooManyEntries);
        }
        Ok(AuthenticatedContext {
            transaction_number: number,
            transaction_id: answer::fit(id),
            scheme,
            credentials: answer::fit(credentials),
            nodes: answer::fit(nodes),
            node_count: (nodes.len() / 2) as u16,
            turned_away: 0,
            ceiling,
        })
    }

    pub fn transaction_number(&self) -> u16
        ensures { result ≡ self.now.transaction_number }
    {
        self.transaction_number
    }

    pub fn transaction_id(&self) -> [u8; 6]
        ensures { result ≡ self.now.transaction_id }
    {
        self.transaction_id
    }

    pub fn scheme(&self) -> u8
        ensures { result ≡ self.now.scheme }
    {
        self.scheme
    }

    pub fn nodes(&self) -> [u8; 128]
        ensures { result ≡ self.now.nodes }
    {
        self.nodes
    }

    pub fn node_count(&self) -> u16
        ensures { result ≡ self.now.node_count }
    {
        self.node_count
    }

    pub fn turned_away(&self) -> u16
        ensures { result ≡ self.now.turned_away }
    {
        self.turned_away
    }

    pub fn ceiling(&self) -> u16
        ensures { result ≡ self.now.ceiling }
    {
        self.ceiling
    }

    // How many nodes are listed: at most 64. A count over 64 cannot arise from a session that was made, or decoded from bytes that are a session;
    // it is cut, so that this is total.
    fn listed(&self) -> usize
        ensures { (result ≡ listed_count self.now.node_count) × (result ≤ 64) }
    {
        usize::from(self.node_count.min(NODES_MAX))
    }

    // The bytes of the nodes that are listed.
    pub fn listed_nodes(&self) -> &[u8]
        ensures { result.now ≡ take (listed_count self.now.node_count * 2) self.now.nodes }
    {
        &self.nodes[..self.listed() * 2]
    }

    // The first place of a node in all of nodes, listed or not. With a fixed length the search is faster: C's call takes 79 to 116 instructions, with
    // a search of the listed nodes alone 99 to 200.
    fn first_place(&self, node: u16) -> Option<usize>
        ensures { let all = node_list self.now.nodes in MatchOption result (first_place all node ≡ length all) (λ place. (place ≡ first_place all node) × (place < length all)) }
    {
        let (pairs, _) = self.nodes.as_chunks::<2>();
        pairs
            .iter()
            .position(|pair| u16::from_le_bytes(*pair) == node)
    }

    // The first place of a node in the session's list, from 0; for C 64 where it is not listed.
    pub fn node_index(&self, node: u16) -> u16
        ensures { result ≡ index self.now node }
    {
        match self.first_place(node) {
            Some(place) if place < self.listed() => place as u16,
            _ => NODES_MAX,
        }
    }

    // The session with another number, whatever it was.
    pub fn with_transaction_number(self, value: u16) -> AuthenticatedContext
        ensures { result ≡ with_number value self }
    {
        AuthenticatedContext {
            transaction_number: value,
            ..self
        }
    }

    // Sets the number, whatever it was; it may go back.
    pub fn set_transaction_number(&mut self, value: u16)
        ensures { self.new ≡ with_number value self.old }
    {
        self.transaction_number = value;
    }

    // The number step by value. At or above the ceiling it is refused.
    pub fn step(self) -> Result<AuthenticatedContext, Refusal>
        ensures { StepsTo self result }
    {
        let ceiling = self.ceiling;
        if ceiling <= self.transaction_number {
            return Err(Refusal::NumberExhausted);
        }
        Ok(self.with_transaction_number(self.transaction_number + 1))
    }

    // The next number, before a command is sealed. A refusal leaves the session as it was.
    pub fn increment_transaction_number(&mut self) -> Answer
        ensures { Steps self.old result self.new }
    {
        let stepped = self.step()?;
        // of what stepped, the number alone is written back: so no session is copied
        self.set_transaction_number(stepped.transaction_number);
        Ok(Accepted::numbered(stepped.transaction_number))
    }

    // Opens a response, and takes its number. A refusal changes nothing but the count.
    pub fn apply_response(&mut self, code: u8, data: &[u8], out: &mut [u8]) -> Answer
        ensures { Receives self.old (receiving self.old code «data».now (length out.old)) result self.new out.old out.new }
    {
        let received = self.receive(code, data, out);
        match received {
            Ok(accepted) => self.set_transaction_number(accepted.transaction_number),
            Err(refusal) => self.count_turned_away(refusal),
        }
        received
    }

    // Counts a refusal for which the response is to blame: 10 to 15 of docs/NUMBERS.md.
    fn count_turned_away(&mut self, refusal: Refusal)
        ensures { self.new ≡ counting (refusal_number refusal) self.old }
    {
        let counted = matches!(
            refusal,
            Refusal::NotWholeBlocks
                | Refusal::TooShort
                | Refusal::TooLong
                | Refusal::MacDiffers
                | Refusal::IdDiffers
                | Refusal::NumberNotAbove
        );
        if counted {
            self.turned_away = self.turned_away.saturating_add(1);
        }
    }

    // Opens a response whose number is above the session's. The trial payload stands in a work block, so that a refusal shows none of it.
    fn receive(&self, code: u8, data: &[u8], out: &mut [u8]) -> Answer
        ensures { Meets (receiving self.now code «data».now (length out.old)) result out.old out.new }
    {
        let mut work = [0u8; 256];
        let opened = self.open(code, data, &mut work)?;
        if opened.transaction_number <= self.transaction_number {
            return Err(Refusal::NumberNotAbove);
        }
        answer::deliver(
            opened.transaction_number,
            0,
            &work[..usize::from(opened.length)],
            out,
        )
    }

    // As much of the credentials as the scheme has.
    fn credentials(&self) -> &[u8]
        ensures { result.now ≡ credentials_of self.now }
    {
        &self.credentials[..credentials_size(self.scheme)]
    }

    // Opens data with the session's scheme, credentials and ID.
    fn open(&self, code: u8, data: &[u8], out: &mut [u8]) -> Answer
        ensures { Meets (opening self.now.scheme (credentials_of self.now) code self.now.transaction_id «data».now (length out.old)) result out.old out.new }
    {
        frame::decrypt_response(
            self.scheme,
            code,
            &self.transaction_id,
            self.credentials(),
            data,
            out,
        )
    }

    // Seals a command with the session's scheme, credentials, ID and number. The number step is a call of its own, before this one.
    pub fn encrypt_command(&self, code: u8, payload: &[u8], out: &mut [u8]) -> Answer
        ensures { Meets (sealing self.now.scheme (credentials_of self.now) code self.now.transaction_number self.now.transaction_id payload.now (length out.old)) result out.old out.new }
    {
        frame::encrypt_command(
            self.scheme,
            code,
            self.transaction_number,
            &self.transaction_id,
            self.credentials(),
            payload,
            out,
        )
    }

    // The session as bytes that a caller keeps.
    pub fn encode(self) -> [u8; 180]
        ensures { (result ≡ encode self) × (decode result ≡ self) }
    {
        let mut bytes = [0u8; 180];
        // each number by itself, so that a call which changes one writes that one alone
        bytes[0] = VERSION;
        bytes[1] = self.scheme;
        bytes[2..4].copy_from_slice(&self.transaction_number.to_le_bytes());
        bytes[4..6].copy_from_slice(&self.ceiling.to_le_bytes());
        bytes[6..8].copy_from_slice(&self.node_count.to_le_bytes());
        bytes[8..14].copy_from_slice(&self.transaction_id);
        bytes[14..50].copy_from_slice(&self.credentials);
        bytes[50..178].copy_from_slice(&self.nodes);
        bytes[178..].copy_from_slice(&self.turned_away.to_le_bytes());
        bytes
    }

    // The session that a caller kept as bytes.
    pub fn decode(bytes: [u8; 180]) -> AuthenticatedContext
        ensures { result ≡ decode bytes }
    {
        let [_, scheme, n0, n1, c0, c1, l0, l1, .., t0, t1] = bytes;
        AuthenticatedContext {
            transaction_number: u16::from_le_bytes([n0, n1]),
            transaction_id: answer::fit(&bytes[8..14]),
            scheme,
            credentials: answer::fit(&bytes[14..50]),
            nodes: answer::fit(&bytes[50..178]),
            node_count: u16::from_le_bytes([l0, l1]),
            turned_away: u16::from_le_bytes([t0, t1]),
            ceiling: u16::from_le_bytes([c0, c1]),
        }
    }
}
