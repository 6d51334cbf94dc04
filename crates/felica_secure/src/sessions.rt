// The session as C functions: bytes that the caller keeps (specs/Record of crate session). Each call decodes them, and encodes the session that
// it leaves.
ghost use Rattle.std.specs.Prelude.{◌≡◌, true, false, [], length, MatchResult};
ghost use Rattle.felica_secure.specs.Calls.{Call, Tells, Keeps, MakesKept};
ghost use Rattle.felica_secure.specs.inner.SessionClosures.{packed_answer, Telling, Keeping};
ghost use Rattle.felica_secure.specs.SessionCalls.{kept_session, call_step, call_set, call_seal, call_receive, call_index, call_number, call_ceiling, call_count, call_scheme, call_id, call_nodes};
ghost use Rattle.session.specs.Record.{encode, decode, is_session};
ghost use Rattle.session.specs.Session.{make_rows, established, established_under};

use crate::pack;
use answer::{Accepted, Answer, Refusal, Scheme};
use session::{AuthenticatedContext, CEILING_NONE};

// The session of these bytes, where they are one: their size, the version, the scheme mark, at most 64 nodes.
fn load(bytes: &[u8]) -> Result<AuthenticatedContext, Refusal>
    ensures { MatchResult result (λ s. (is_session bytes.now ≡ true) × (s ≡ decode bytes.now)) (λ e. (is_session bytes.now ≡ false) × (e ≡ Refusal.BadMarkOrLength)) }
{
    let kept = bytes.as_array::<180>().ok_or(Refusal::BadMarkOrLength)?;
    let other = kept[0] != 2;
    if other {
        return Err(Refusal::BadMarkOrLength);
    }
    Scheme::try_from(kept[1])?;
    if 64 < u16::from_le_bytes([kept[6], kept[7]]) {
        return Err(Refusal::BadMarkOrLength);
    }
    Ok(AuthenticatedContext::decode(*kept))
}

// Writes a session over its bytes.
fn store(context: &AuthenticatedContext, bytes: &mut [u8])
    requires { length bytes.old ≡ 180 }
    ensures { (bytes.new ≡ encode context.now) × (decode bytes.new ≡ context.now) }
{
    bytes.copy_from_slice(&context.encode());
}

// What a call answers of the session of these bytes, and writes to out. Bytes that are no session are refused, and nothing is written. The call is
// given out: std's `and_then` does not say what a closure that is not called leaves in what it has borrowed.
fn tell<F: FnOnce(AuthenticatedContext, &mut [u8]) -> Answer>(
    session: &[u8],
    out: &mut [u8],
    call: F,
) -> Answer
    requires { F.IsAlwaysCallable call }
    ensures { (called : AuthenticatedContext → Call AuthenticatedContext) → Telling (F.post call) (decode session.now) out.old called → Tells kept_session called session.now (packed_answer result) out.old out.new }
{
    call(load(session)?, out)
}

// The same of a call that changes the session. What it leaves is written over the bytes.
fn keep<F: FnOnce(&mut AuthenticatedContext, &mut [u8]) -> Answer>(
    session: &mut [u8],
    out: &mut [u8],
    call: F,
) -> Answer
    requires { F.IsAlwaysCallable call }
    ensures { (called : AuthenticatedContext → Call AuthenticatedContext) → Keeping (F.post call) (decode session.old) out.old called → Keeps kept_session called session.old session.new (packed_answer result) out.old out.new }
{
    let mut context = load(session)?;
    let answer = call(&mut context, out);
    store(&context, session);
    answer
}

// Makes a session over these bytes, which have to be 180. It takes all that C's functions take: one that only writes what C's function made is
// slower.
fn make(
    scheme: u8,
    number: u16,
    ceiling: u16,
    id: &[u8],
    credentials: &[u8],
    nodes: &[u8],
    session: &mut [u8],
) -> Answer
    ensures { MakesKept kept_session (make_rows scheme (length id.now) (length credentials.now) (length nodes.now)) (established_under ceiling scheme number id.now credentials.now nodes.now) (packed_answer result) session.old session.new }
{
    if session.len() != 180 {
        return Err(Refusal::BadMarkOrLength);
    }
    let context = AuthenticatedContext::new_with_ceiling(
        scheme,
        number,
        ceiling,
        id,
        credentials,
        nodes,
    )?;
    store(&context, session);
    Ok(Accepted::sized(180))
}

// Makes a session without a ceiling.
#[unsafe(no_mangle)]
pub extern "C" fn felica_session_new(
    scheme: u8,
    number: u16,
    id: &[u8],
    credentials: &[u8],
    nodes: &[u8],
    session: &mut [u8],
) -> u64
    ensures { MakesKept kept_session (make_rows scheme (length id.now) (length credentials.now) (length nodes.now)) (established scheme number id.now credentials.now nodes.now) result session.old session.new }
{
    pack::pack(make(
        scheme,
        number,
        CEILING_NONE,
        id,
        credentials,
        nodes,
        session,
    ))
}

// Makes one with a ceiling: from there on the number does not step.
#[unsafe(no_mangle)]
pub extern "C" fn felica_session_new_with_ceiling(
    scheme: u8,
    number: u16,
    ceiling: u16,
    id: &[u8],
    credentials: &[u8],
    nodes: &[u8],
    session: &mut [u8],
) -> u64
    ensures { MakesKept kept_session (make_rows scheme (length id.now) (length credentials.now) (length nodes.now)) (established_under ceiling scheme number id.now credentials.now nodes.now) result session.old session.new }
{
    pack::pack(make(scheme, number, ceiling, id, credentials, nodes, session))
}

// Steps the number.
#[unsafe(no_mangle)]
pub extern "C" fn felica_session_increment_transaction_number(session: &mut [u8]) -> u64
    ensures { Keeps kept_session call_step session.old session.new result [] [] }
{
    pack::pack(keep(
        session,
        &mut [],
        |context, _| context.increment_transaction_number(),
    ))
}

// Sets the number.
#[unsafe(no_mangle)]
pub extern "C" fn felica_session_set_transaction_number(session: &mut [u8], number: u16) -> u64
    ensures { Keeps kept_session (call_set number) session.old session.new result [] [] }
{
    pack::pack(keep(session, &mut [], |context, _| {
        context.set_transaction_number(number);
        Ok(Accepted::sized(0))
    }))
}

// Seals a command with the session's number.
#[unsafe(no_mangle)]
pub extern "C" fn felica_session_encrypt_command(
    session: &[u8],
    code: u8,
    payload: &[u8],
    out: &mut [u8],
) -> u64
    ensures { Tells kept_session (call_seal code payload.now (length out.old)) session.now result out.old out.new }
{
    pack::pack(tell(
        session,
        out,
        |context, out| context.encrypt_command(code, payload, out),
    ))
}

// Opens a response, and takes its number.
#[unsafe(no_mangle)]
pub extern "C" fn felica_session_apply_response(
    session: &mut [u8],
    code: u8,
    data: &[u8],
    out: &mut [u8],
) -> u64
    ensures { Keeps kept_session (call_receive code «data».now (length out.old)) session.old session.new result out.old out.new }
{
    pack::pack(keep(
        session,
        out,
        |context, out| context.apply_response(code, data, out),
    ))
}

// The first place of a node.
#[unsafe(no_mangle)]
pub extern "C" fn felica_session_node_index(session: &[u8], node: u16) -> u64
    ensures { Tells kept_session (call_index node) session.now result [] [] }
{
    pack::pack(load(session).map(|context| Accepted::sized(context.node_index(node))))
}

// The session's number.
#[unsafe(no_mangle)]
pub extern "C" fn felica_session_transaction_number(session: &[u8]) -> u64
    ensures { Tells kept_session call_number session.now result [] [] }
{
    pack::pack(load(session).map(|context| Accepted::numbered(context.transaction_number())))
}

// The session's ceiling.
#[unsafe(no_mangle)]
pub extern "C" fn felica_session_ceiling(session: &[u8]) -> u64
    ensures { Tells kept_session call_ceiling session.now result [] [] }
{
    pack::pack(load(session).map(|context| Accepted::numbered(context.ceiling())))
}

// How many responses were turned away.
#[unsafe(no_mangle)]
pub extern "C" fn felica_session_turned_away(session: &[u8]) -> u64
    ensures { Tells kept_session call_count session.now result [] [] }
{
    pack::pack(load(session).map(|context| Accepted::sized(context.turned_away())))
}

// The session's scheme mark. An `Accepted` has no place for it, so this is no `map`.
#[unsafe(no_mangle)]
pub extern "C" fn felica_session_scheme(session: &[u8]) -> u64
    ensures { Tells kept_session call_scheme session.now result [] [] }
{
    match load(session) {
        Ok(context) => pack::pack_all(0, context.scheme(), 0, 0),
        Err(refusal) => pack::pack(Err(refusal)),
    }
}

// The session's transaction ID.
#[unsafe(no_mangle)]
pub extern "C" fn felica_session_transaction_id(session: &[u8], out: &mut [u8]) -> u64
    ensures { Tells kept_session (call_id (length out.old)) session.now result out.old out.new }
{
    pack::pack(tell(
        session,
        out,
        |context, out| answer::deliver(0, 0, &context.transaction_id(), out),
    ))
}

// The session's nodes, as bytes.
#[unsafe(no_mangle)]
pub extern "C" fn felica_session_nodes(session: &[u8], out: &mut [u8]) -> u64
    ensures { Tells kept_session (call_nodes (length out.old)) session.now result out.old out.new }
{
    pack::pack(tell(
        session,
        out,
        |context, out| answer::deliver(0, 0, context.listed_nodes(), out),
    ))
}
