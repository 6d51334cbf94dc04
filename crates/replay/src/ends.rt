// A reader and a card with the same keys, through every call: each is accepted, and both get the same. Each output has the size of what is written.
// A method that makes an array of N bytes asks that N is at most 64, since an array has to have a bound.
ghost use Rattle.std.specs.Prelude.{◌≤◌};

use crate::note::Checks;
use answer::{Accepted, Answer, Scheme};

// What both ends know.
static IDM: [u8; 8] = *b"\x01\x02\x03\x04\x05\x06\x07\x08";

static CHALLENGE_3C: [u8; 4] = *b"\x21\x22\x23\x24";

static ID: [u8; 6] = *b"\x11\x12\x13\x14\x15\x16";

pub(crate) fn with_des(checks: &mut Checks, mark: u8) {
    let keys =
        b"\xFF\xFF\x01system key 12345\x00\x00\x01area key 1234567\x08\x10\x01service key 1234";
    let reader: [u8; 16] = derived(checks, mark, Scheme::Des, keys, 0);
    let card = derived(checks, mark, Scheme::Des, keys, 1);
    checks.holds(reader == card);
    let ends = Ends {
        mark: Scheme::Des.mark(),
        reader: &reader,
        card: &card,
    };
    ends.way_out(checks, *b"the read");
    ends.return_way(checks, *b"the card");
    let ends = Ends {
        reader: b"DES key ",
        card: b"DES key ",
        ..ends
    };
    ends.command::<32>(checks);
    ends.reply::<34>(checks);
}

pub(crate) fn with_aes(checks: &mut Checks, mark: u8) {
    let keys = b"\x00\x00\x02area key 1234567\x08\x10\x02service key 1234";
    let reader: [u8; 32] = derived(checks, mark, Scheme::Aes128, keys, 0);
    let card = derived(checks, mark, Scheme::Aes128, keys, 1);
    checks.holds(reader == card);
    let ends = Ends {
        mark: Scheme::Aes128.mark(),
        reader: &reader,
        card: &card,
    };
    ends.way_out(checks, *b"the reader's one");
    let random = ends.return_way(checks, *b"the card's other");
    // The reader's session keys are from the random 2 that it read.
    let reader = session_credentials(checks, random);
    let card = session_credentials(checks, *b"the card's other");
    checks.holds(reader == card);
    let ends = Ends {
        reader: &reader,
        card: &card,
        ..ends
    };
    ends.command::<26>(checks);
    ends.reply::<28>(checks);
}

// The keys that one end derives: one check. The ends start with other bytes, so that an output that is not written is seen.
fn derived<const N: usize>(
    checks: &mut Checks,
    mark: u8,
    scheme: Scheme,
    keys: &[u8],
    start: u8,
) -> [u8; N] {
    let mut out = [start; N];
    let derived = session::derive_auth_keys(mark, keys, b"\0\0", b"\x08\x10", &[], &mut out);
    checks.holds(derived.is_ok_and(|keys| usize::from(keys.length) == N && keys.scheme == scheme));
    out
}

// The session keys of a random 2, and Challenge 3C: one check.
fn session_credentials(checks: &mut Checks, random_2: [u8; 16]) -> [u8; 36] {
    let mut credentials = *b"................................\x21\x22\x23\x24";
    checks.gives(
        session::derive_secure_session_keys(&random_2, &mut credentials[..32]),
        32,
    );
    credentials
}

// Both ends: the scheme's mark, and what each has for a key.
#[derive(Clone, Copy)]
struct Ends<'a> {
    mark: u8,
    reader: &'a [u8],
    card: &'a [u8],
}

impl<'a> Ends<'a> {
    // Random 1: 1A from the reader, 1B from the card.
    fn way_out<const N: usize>(self, checks: &mut Checks, random: [u8; N]) {
        let Ends { mark, reader, card } = self;
        challenge(
            checks,
            random,
            |text, out| session::encrypt_challenge1a(mark, reader, &IDM, text, out),
            |text, out| session::decrypt_challenge1a(mark, card, &IDM, text, out),
            |text, out| session::encrypt_challenge1b(mark, card, &IDM, &CHALLENGE_3C, text, out),
            |text| session::verify_challenge1b(mark, reader, &IDM, &CHALLENGE_3C, &random, text),
        );
    }

    // Random 2: 2A from the card, 2B from the reader. Answers what the reader reads.
    fn return_way<const N: usize>(self, checks: &mut Checks, random: [u8; N]) -> [u8; N] {
        let Ends { mark, reader, card } = self;
        challenge(
            checks,
            random,
            |text, out| session::encrypt_challenge2a(mark, card, &IDM, &CHALLENGE_3C, text, out),
            |text, out| session::decrypt_challenge2a(mark, reader, &IDM, &CHALLENGE_3C, text, out),
            |text, out| session::encrypt_challenge2b(mark, reader, &IDM, text, out),
            |text| session::verify_challenge2b(mark, card, &IDM, &random, text),
        )
    }

    // A command from the reader, opened by the card: three checks. Sealed it has N bytes.
    fn command<const N: usize>(self, checks: &mut Checks)
        requires { N ≤ 64 }
    {
        let Ends { mark, reader, card } = self;
        let payload = b"a command, whole";
        let mut sent = [0; N];
        let made = frame::encrypt_command(mark, 0x42, 1, &ID, reader, payload, &mut sent);
        checks.gives(made, N);
        let mut got = [0; 16];
        let opened = frame::decrypt_response(mark, 0x42, &ID, card, &sent, &mut got);
        checks.holds(opened == opened_16(1));
        checks.holds(got == *payload);
    }

    // A response frame of N bytes from the card, opened by the reader: five checks.
    fn reply<const N: usize>(self, checks: &mut Checks)
        requires { N ≤ 64 }
    {
        let Ends { mark, reader, card } = self;
        let payload = b"the card's reply";
        let mut sent = [0; N];
        let made = frame::build_secure_response_frame(mark, 0x43, 2, &ID, card, payload, &mut sent);
        checks.gives(made, N);
        checks.holds(sent.first().is_some_and(|length| usize::from(*length) == N));
        checks.holds(sent.get(1) == Some(&0x43));
        let mut got = [0; 16];
        let sealed = sent.get(2..).unwrap_or(&[]);
        let opened = frame::decrypt_response(mark, 0x43, &ID, reader, sealed, &mut got);
        checks.holds(opened == opened_16(2));
        checks.holds(got == *payload);
    }
}

// The answer to 16 bytes that are opened.
fn opened_16(transaction_number: u16) -> Answer {
    Ok(Accepted::opened(16, transaction_number))
}

// A challenge made at one end and read at the other, and that one's proof of it checked at the first: five checks. Answers what was read.
fn challenge<
    M: FnOnce(&[u8], &mut [u8]) -> Answer,
    D: FnOnce(&[u8], &mut [u8]) -> Answer,
    P: FnOnce(&[u8], &mut [u8]) -> Answer,
    V: FnOnce(&[u8]) -> Answer,
    const N: usize,
>(checks: &mut Checks, random: [u8; N], make: M, read: D, prove: P, verify: V) -> [u8; N]
    requires makes { M.IsAlwaysCallable make }
    requires reads { D.IsAlwaysCallable read }
    requires proves { P.IsAlwaysCallable prove }
    requires verifies { V.IsAlwaysCallable verify }
{
    let mut sent = [0; N];
    checks.gives(make(&random, &mut sent), N);
    let mut got = [0; N];
    checks.gives(read(&sent, &mut got), N);
    checks.holds(got == random);
    let mut proof = [0; N];
    checks.gives(prove(&got, &mut proof), N);
    checks.gives(verify(&proof), 0);
    got
}
