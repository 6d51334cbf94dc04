// The session's corners: its number at both ends of its range and around a ceiling, its count of responses turned away at the top, and the order in
// which a response is refused.
ghost use Rattle.std.specs.Prelude.{◌≤◌};

use crate::note::Checks;
use answer::{Accepted, Refusal, Scheme};
use session::AuthenticatedContext;

static CREDENTIALS: [u8; 36] = [0x5A; 36];

fn credentials(scheme: Scheme) -> &'static [u8] {
    match scheme {
        Scheme::Des => &CREDENTIALS[..8],
        Scheme::Aes128 => &CREDENTIALS,
    }
}

// A new session, with no nodes: one check. There is none where it does not hold.
fn begin(checks: &mut Checks, scheme: Scheme, number: u16) -> Option<AuthenticatedContext> {
    let id = b"\x11\x12\x13\x14\x15\x16";
    let made = AuthenticatedContext::new(scheme.mark(), number, id, credentials(scheme), &[]).ok();
    checks.holds(made.is_some());
    made
}

// The same with a ceiling.
fn begin_under(
    checks: &mut Checks,
    scheme: Scheme,
    number: u16,
    ceiling: u16,
) -> Option<AuthenticatedContext> {
    let id = b"\x11\x12\x13\x14\x15\x16";
    let credentials = credentials(scheme);
    let made = AuthenticatedContext::new_with_ceiling(
        scheme.mark(),
        number,
        ceiling,
        id,
        credentials,
        &[],
    ).ok();
    checks.holds(made.is_some_and(|context| {
        context.ceiling() == ceiling && is_left(context, number, 0)
    }));
    made
}

fn is_left(context: AuthenticatedContext, number: u16, count: u16) -> bool {
    context.transaction_number() == number && context.turned_away() == count
}

// 65,537 responses of 9 bytes, each turned away as too short: the count ends at 65,535.
pub(crate) fn many(checks: &mut Checks) {
    let Some(mut context) = begin(checks, Scheme::Aes128, 5) else {
        return;
    };
    for i in 1..65538u32 {
        let count = u16::try_from(i).unwrap_or(u16::MAX);
        let mut out = [0xA5u8; 8];
        let received = context.apply_response(0x43, b"\x06\0\0\0\0\0\0\0\0", &mut out);
        checks.holds(
            received == Err(Refusal::TooShort) && is_left(context, 5, count) && out == [0xA5; 8],
        );
    }
    checks.holds(is_left(context, 5, 65535));
}

// The number step: the number that a session is given before it, if any; whether there is a next number, and the session's number after it.
pub(crate) fn stepping(checks: &mut Checks) {
    let steps = [
        (None, true, 65535),
        (None, false, 65535),
        (None, false, 65535),
        (Some(3), true, 4),
        (Some(0), true, 1),
        (Some(65535), false, 65535),
    ];
    let Some(mut context) = begin(checks, Scheme::Des, 65534) else {
        return;
    };
    for (before, is_next, number) in steps {
        if let Some(before) = before {
            context.set_transaction_number(before);
        }
        let wanted = if is_next {
            Ok(Accepted::numbered(number))
        } else {
            Err(Refusal::NumberExhausted)
        };
        let stepped = context.increment_transaction_number();
        checks.holds(stepped == wanted && is_left(context, number, 0));
    }
}

// The step under a ceiling: the session's number and its ceiling, and the number after the step. Where there is none the step is refused, and all
// bytes of the session are as they were.
pub(crate) fn ceilings(checks: &mut Checks) {
    let steps = [
        (4, 5, Some(5)),
        (5, 5, None),
        (6, 5, None),
        (0, 0, None),
        (65534, 65535, Some(65535)),
        (65535, 65535, None),
    ];
    for (number, ceiling, next) in steps {
        let Some(mut context) = begin_under(checks, Scheme::Des, number, ceiling) else {
            return;
        };
        let before = context.encode();
        let stepped = context.increment_transaction_number();
        checks.holds(match next {
            Some(next) => {
                stepped == Ok(Accepted::numbered(next))
                    && is_left(context, next, 0)
                    && context.ceiling() == ceiling
            }
            None => stepped == Err(Refusal::NumberExhausted) && context.encode() == before,
        });
    }
}

// Under a ceiling of 5, in one scheme, where a sealed response has N bytes: a response goes past the ceiling, after which no step is taken until
// the number is set below it; setting goes past it too.
pub(crate) fn past<const N: usize>(checks: &mut Checks, scheme: Scheme)
    requires { N ≤ 64 }
{
    let Some(mut context) = begin_under(checks, scheme, 4, 5) else {
        return;
    };
    for number in [6, 65535] {
        checks.holds(sealed::<N>(scheme, sent(0x16, number)).is_some_and(|sealed| receive(
            &mut context,
            &sealed,
            8,
            leaves(None, number, 0),
        )));
        let before = context.encode();
        let stepped = context.increment_transaction_number();
        checks.holds(stepped == Err(Refusal::NumberExhausted) && context.encode() == before);
    }
    for (number, next) in [(9, None), (5, None), (4, Some(5))] {
        context.set_transaction_number(number);
        let stepped = context.increment_transaction_number();
        checks.holds(stepped == next.map(Accepted::numbered).ok_or(Refusal::NumberExhausted));
        checks.holds(is_left(context, next.unwrap_or(number), 0) && context.ceiling() == 5);
    }
}

// 65,535 steps from 0 on, without a ceiling, and the one that is refused.
pub(crate) fn all_steps(checks: &mut Checks) {
    let Some(mut context) = begin(checks, Scheme::Aes128, 0) else {
        return;
    };
    for i in 1..65536u32 {
        let next = u16::try_from(i).unwrap_or(u16::MAX);
        let stepped = context.increment_transaction_number();
        checks.holds(stepped == Ok(Accepted::numbered(next)) && is_left(context, next, 0));
    }
    let refused = context.increment_transaction_number();
    checks.holds(refused == Err(Refusal::NumberExhausted) && is_left(context, 65535, 0));
}

// What a response is sealed with: the last byte of the ID (0x16 is the session's), and the number.
#[derive(Clone, Copy)]
struct Response {
    id: u8,
    number: u16,
}

// What is to come of it: the refusal, if any, and the session's number and count.
#[derive(Clone, Copy)]
struct Outcome {
    refusal: Option<Refusal>,
    number: u16,
    count: u16,
}

fn sent(id: u8, number: u16) -> Response {
    Response { id, number }
}

fn leaves(refusal: Option<Refusal>, number: u16, count: u16) -> Outcome {
    Outcome {
        refusal,
        number,
        count,
    }
}

// The response step, in one scheme, where a sealed response has N bytes: the number that the session is given before it, if any; the response, how
// many bytes the output has, and what is to come of it. Another ID is told by the ID in DES and by the MAC in AES, and comes before a number that is
// not above; that comes before an output that is too small, which is not counted. An array of N bytes has to have a bound.
pub(crate) fn responses<const N: usize>(checks: &mut Checks, scheme: Scheme)
    requires { N ≤ 64 }
{
    let other = match scheme {
        Scheme::Des => Some(Refusal::IdDiffers),
        Scheme::Aes128 => Some(Refusal::MacDiffers),
    };
    let small = Some(Refusal::OutputTooSmall);
    let old = Some(Refusal::NumberNotAbove);
    let steps = [
        (None, sent(0x16, 6), 7, leaves(small, 5, 0)),
        (None, sent(0x16, 5), 0, leaves(old, 5, 1)),
        (None, sent(0x16, 5), 8, leaves(old, 5, 2)),
        (None, sent(0x16, 4), 7, leaves(old, 5, 3)),
        (None, sent(0x17, 4), 0, leaves(other, 5, 4)),
        (None, sent(0x17, 6), 8, leaves(other, 5, 5)),
        (None, sent(0x16, 6), 8, leaves(None, 6, 5)),
        (None, sent(0x16, 6), 8, leaves(old, 6, 6)),
        (Some(65535), sent(0x16, 65535), 8, leaves(old, 65535, 7)),
        (Some(3), sent(0x16, 65535), 8, leaves(None, 65535, 7)),
    ];
    let Some(mut context) = begin(checks, scheme, 5) else {
        return;
    };
    for (before, response, room, outcome) in steps {
        if let Some(before) = before {
            context.set_transaction_number(before);
        }
        checks.holds(sealed::<N>(scheme, response).is_some_and(|sealed| receive(
            &mut context,
            &sealed,
            room,
            outcome,
        )));
    }
}

// A sealed response of eight bytes, where sealing gives as many bytes as it has to.
fn sealed<const N: usize>(scheme: Scheme, response: Response) -> Option<[u8; N]> {
    let id = [0x11, 0x12, 0x13, 0x14, 0x15, response.id];
    let mut out = [0; N];
    let made = frame::encrypt_command(
        scheme.mark(),
        0x43,
        response.number,
        &id,
        credentials(scheme),
        b"payload8",
        &mut out,
    );
    made.is_ok_and(|accepted| usize::from(accepted.length) == N)
        .then_some(out)
}

// Whether of a response, received with an output of `room` bytes, comes what is to come. What is written is the payload or nothing.
fn receive(
    context: &mut AuthenticatedContext,
    sealed: &[u8],
    room: usize,
    outcome: Outcome,
) -> bool {
    let mut out = [0xA5u8; 8];
    let received = context.apply_response(0x43, sealed, &mut out[..room.min(8)]);
    let (wanted, written) = match outcome.refusal {
        None => {
            let accepted = Accepted::opened(8, outcome.number);
            (Ok(accepted), *b"payload8")
        }
        Some(refusal) => (Err(refusal), [0xA5; 8]),
    };
    received == wanted && is_left(*context, outcome.number, outcome.count) && out == written
}
