// The front of a response frame: a length byte, which counts itself, and the code (command/mod.rs).
ghost use Rattle.std.specs.Prelude.{◌≡◌, [], ◌∷◌, ◌+◌, ◌≤◌, length};
ghost use Rattle.answer.specs.Outcome.{over};

// Writes the front of a frame whose sealed data has `sealed` bytes, and answers the frame's length.
pub(crate) fn frame_with_length_prefix(code: u8, sealed: usize, out: &mut [u8]) -> usize
    requires sealed_bound { sealed ≤ 253 }
    requires in_bounds { 2 ≤ length out.old }
    ensures { (result ≡ sealed + 2) × (out.new ≡ over ((sealed + 2) ∷ code ∷ []) out.old) }
{
    let length = sealed + 2;
    out[0] = length as u8;
    out[1] = code;
    length
}
