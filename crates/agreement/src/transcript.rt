// A reader and a card, played against each other. What one end makes, the other end reads, checks or opens. A refusal there would be the
// answer; the contracts know no such answer, so it is proved that none comes. Nothing is allocated, as in the crates below, so each message goes into
// an array of the most that it can have.
ghost use Rattle.std.specs.Prelude.{◌+◌, ◌≤◌, ◌≡◌, ◌≢◌, ◌++◌, length, take, IfOk};
ghost use Rattle.cipher.specs.Bytes.{Bytes};
ghost use Rattle.answer.specs.Outcome.{Meets, over};
ghost use Rattle.answer.specs.Scheme.{mark_of};
ghost use Rattle.session.specs.Challenge.{deriving_session_keys};
ghost use Rattle.agreement.specs.Play.{saying, playing};
ghost use Rattle.agreement.specs.inner.Said.{holding, exchange1, random2_read, exchange2, conversation, credentials_of};

use answer::{Accepted, Answer, Scheme};

// Two pieces, one behind the other, over the front of out; answers how many bytes they are. std has no function that puts two arrays into one.
fn join(a: &[u8], b: &[u8], out: &mut [u8]) -> usize
    requires { length a.now + length b.now ≤ length out.old }
    ensures { (result ≡ length (a.now ++ b.now)) × (out.new ≡ over (a.now ++ b.now) out.old) }
{
    let n = a.len();
    let end = n + b.len();
    out[..n].copy_from_slice(a);
    out[n..end].copy_from_slice(b);
    end
}

// What a call wrote over the front of a block.
fn written(block: &[u8], count: u16) -> &[u8]
    requires { count ≤ length block.now }
    ensures { result.now ≡ take count block.now }
{
    &block[..usize::from(count)]
}

// A command, and what its response says. A proof knows of a parameter's slice that its entries are bytes, but not of a field's: so the
// structs keep it.
#[derive(Clone, Copy)]
struct Command<'a> {
    code: u8,
    number: u16,
    id: &'a [u8],
    payload: &'a [u8],
    ghost id_bytes: { Bytes id.now },
    ghost payload_bytes: { Bytes payload.now },
}

// Both ends after their derivations, which gave them the same keys, and what both know.
#[derive(Clone, Copy)]
struct Ends<'a> {
    scheme: Scheme,
    reader: &'a [u8],
    card: &'a [u8],
    idm: &'a [u8],
    challenge_3c: &'a [u8],
    ghost same_keys: { reader.now ≡ card.now },
    ghost card_bytes: { Bytes card.now },
    ghost idm_bytes: { Bytes idm.now },
    ghost challenge_3c_bytes: { Bytes challenge_3c.now },
}

impl<'a> Command<'a> {
    // The reader seals the command, the card opens it and answers with a response frame, and the reader opens that.
    fn talk(self, scheme: Scheme, reader: &[u8], card: &[u8], out: &mut [u8; 512]) -> Answer
        requires { reader.now ≡ card.now }
        ensures { Meets (conversation (mark_of scheme) self.entry.code self.entry.number self.entry.id.now reader.now card.now self.entry.payload.now) result out.old out.new }
    {
        let mark = scheme.mark();
        let mut sealed = [0u8; 256];
        let made = frame::encrypt_command(
            mark,
            self.code,
            self.number,
            self.id,
            reader,
            self.payload,
            &mut sealed,
        )?;
        let sealed = written(&sealed, made.length);
        let mut opened = [0u8; 256];
        frame::decrypt_response(mark, self.code, self.id, card, sealed, &mut opened)?;
        let mut block = [0u8; 256];
        let answered = frame::build_secure_response_frame(
            mark,
            self.code,
            self.number,
            self.id,
            card,
            self.payload,
            &mut block,
        )?;
        let block = written(&block, answered.length);
        frame::decrypt_response(mark, self.code, self.id, reader, &block[2..], &mut opened)?;
        Ok(Accepted::sized(join(sealed, block, out) as u16))
    }
}

// The AES session keys of a random 2, then Challenge 3C. With these lengths the keys are not refused.
fn aes_credentials(random_2: &[u8], challenge_3c: &[u8]) -> [u8; 36]
    requires random_2_len { length random_2.now ≡ 16 }
    requires challenge_3c_len { length challenge_3c.now ≡ 4 }
    ensures { result ≡ (deriving_session_keys random_2.now 32).bytes ++ challenge_3c.now }
{
    let mut credentials = [0u8; 36];
    session::derive_secure_session_keys(random_2, &mut credentials).unwrap();
    credentials[32..].copy_from_slice(challenge_3c);
    credentials
}

impl<'a> Ends<'a> {
    // One function for both exchanges and for `talk` would take four closures, each with a contract, at every call: longer than the calls. The
    // proofs go by one argument (proofs/MessagePairs).

    // Random 1: the reader sends 1A, the card reads it and answers with 1B, and the reader checks that.
    fn exchange_1(self, random_1: &[u8], out: &mut [u8; 32]) -> Answer
        ensures { Meets (exchange1 (mark_of self.entry.scheme) self.entry.reader.now self.entry.card.now self.entry.idm.now self.entry.challenge_3c.now random_1.now) result out.old out.new }
    {
        let mark = self.scheme.mark();
        let mut sent = [0u8; 16];
        let made = session::encrypt_challenge1a(mark, self.reader, self.idm, random_1, &mut sent)?;
        let sent = written(&sent, made.length);
        let mut random = [0u8; 16];
        let read = session::decrypt_challenge1a(mark, self.card, self.idm, sent, &mut random)?;
        let read_1 = written(&random, read.length);
        let mut block = [0u8; 16];
        let answered = session::encrypt_challenge1b(
            mark,
            self.card,
            self.idm,
            self.challenge_3c,
            read_1,
            &mut block,
        )?;
        let block = written(&block, answered.length);
        session::verify_challenge1b(
            mark,
            self.reader,
            self.idm,
            self.challenge_3c,
            random_1,
            block,
        )?;
        Ok(Accepted::sized(join(sent, block, out) as u16))
    }

    // Random 2: the card sends 2A, the reader reads it and answers with 2B, and the card checks that. The random 2 that was read goes to `random`.
    fn exchange_2(self, random_2: &[u8], random: &mut [u8; 16], out: &mut [u8; 32]) -> Answer
        ensures meets { Meets (exchange2 (mark_of self.entry.scheme) self.entry.reader.now self.entry.card.now self.entry.idm.now self.entry.challenge_3c.now random_2.now) result out.old out.new }
        ensures random_after { IfOk result (λ _. random.new ≡ over (random2_read (mark_of self.entry.scheme) self.entry.reader.now self.entry.card.now self.entry.idm.now self.entry.challenge_3c.now random_2.now) random.old) }
    {
        let mark = self.scheme.mark();
        let mut sent = [0u8; 16];
        let made = session::encrypt_challenge2a(
            mark,
            self.card,
            self.idm,
            self.challenge_3c,
            random_2,
            &mut sent,
        )?;
        let sent = written(&sent, made.length);
        let read = session::decrypt_challenge2a(
            mark,
            self.reader,
            self.idm,
            self.challenge_3c,
            sent,
            random,
        )?;
        let read_2 = written(random, read.length);
        let mut block = [0u8; 16];
        let answered = session::encrypt_challenge2b(
            mark,
            self.reader,
            self.idm,
            read_2,
            &mut block,
        )?;
        let block = written(&block, answered.length);
        session::verify_challenge2b(mark, self.card, self.idm, random_2, block)?;
        Ok(Accepted::sized(join(sent, block, out) as u16))
    }

    // A conversation with the credentials of the scheme. For DES both ends have the session key. For AES the reader makes its session keys from
    // the random 2 that it read, and the card from its own.
    fn converse(
        self,
        random: &[u8],
        random_2: &[u8],
        command: Command,
        session_key: &[u8],
        out: &mut [u8; 512],
    ) -> Answer
        requires { (mark_of self.scheme ≢ 1) → (random.now ≡ random_2.now) × (length random_2.now ≡ 16) × (length self.challenge_3c.now ≡ 4) }
        ensures { Meets (conversation (mark_of self.entry.scheme) command.entry.code command.entry.number command.entry.id.now (credentials_of (mark_of self.entry.scheme) session_key.now random.now self.entry.challenge_3c.now) (credentials_of (mark_of self.entry.scheme) session_key.now random_2.now self.entry.challenge_3c.now) command.entry.payload.now) result out.old out.new }
    {
        match self.scheme {
            Scheme::Des => command.talk(self.scheme, session_key, session_key, out),
            Scheme::Aes128 => {
                let reader = aes_credentials(random, self.challenge_3c);
                let card = aes_credentials(random_2, self.challenge_3c);
                command.talk(self.scheme, &reader, &card, out)
            }
        }
    }

    // All that is said once both ends have their keys.
    fn speak(
        self,
        random_1: &[u8],
        random_2: &[u8],
        command: Command,
        session_key: &[u8],
        out: &mut [u8],
    ) -> Answer
        ensures { Meets (saying (holding (mark_of self.entry.scheme) self.entry.reader.now) (holding (mark_of self.entry.scheme) self.entry.card.now) self.entry.idm.now self.entry.challenge_3c.now random_1.now random_2.now command.entry.code command.entry.number command.entry.id.now session_key.now command.entry.payload.now (length out.old)) result out.old out.new }
    {
        let mut one = [0u8; 32];
        let first = self.exchange_1(random_1, &mut one)?;
        let mut random = [0u8; 16];
        let mut two = [0u8; 32];
        let second = self.exchange_2(random_2, &mut random, &mut two)?;
        let mut three = [0u8; 512];
        let third = self.converse(&random, random_2, command, session_key, &mut three)?;
        let one = written(&one, first.length);
        let two = written(&two, second.length);
        let three = written(&three, third.length);
        let mut exchanged = [0u8; 64];
        let n = join(one, two, &mut exchanged);
        let mut said = [0u8; 576];
        let end = join(&exchanged[..n], three, &mut said);
        answer::deliver(0, 0, &said[..end], out)
    }
}

// Both ends derive from the same lists, and then speak: 1A, 1B, 2A, 2B, a sealed command and a response frame go over the front of out. Where
// a derivation, a length or the output refuses, the answer is that refusal, and nothing is written.
pub fn play(
    mark: u8,
    keys: &[u8],
    areas: &[u8],
    services: &[u8],
    individual: &[u8],
    idm: &[u8],
    challenge_3c: &[u8],
    random_1: &[u8],
    random_2: &[u8],
    code: u8,
    number: u16,
    id: &[u8],
    session_key: &[u8],
    payload: &[u8],
    out: &mut [u8],
) -> Answer
    ensures { Meets (playing mark keys.now areas.now services.now individual.now idm.now challenge_3c.now random_1.now random_2.now code number id.now session_key.now payload.now (length out.old)) result out.old out.new }
{
    let mut reader = [0u8; 32];
    let one = session::derive_auth_keys(mark, keys, areas, services, individual, &mut reader)?;
    let mut card = [0u8; 32];
    let other = session::derive_auth_keys(mark, keys, areas, services, individual, &mut card)?;
    let ends = Ends {
        scheme: one.scheme,
        reader: written(&reader, one.length),
        card: written(&card, other.length),
        idm,
        challenge_3c,
    };
    let command = Command {
        code,
        number,
        id,
        payload,
    };
    ends.speak(random_1, random_2, command, session_key, out)
}
