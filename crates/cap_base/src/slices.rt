//! Parts of byte slices, each a call of its own, so that a caller's contract speaks of `take` and `drop`.
ghost use Rattle.std.specs.Prelude.{◌≡◌, ◌≤◌, ◌+◌, length, take, drop};

/// The bytes from a place on.
pub fn bytes_from(bytes: &[u8], at: usize) -> &[u8]
    requires { at ≤ length bytes.now }
    ensures { result.now ≡ drop at bytes.now }
{
    &bytes[at..]
}

/// So many bytes from a place on.
pub fn bytes_at(bytes: &[u8], at: usize, len: usize) -> &[u8]
    requires { at + len ≤ length bytes.now }
    ensures value { result.now ≡ take len (drop at bytes.now) }
    ensures len { length result.now ≡ len }
{
    &bytes[at..at + len]
}

/// Drops the bytes before a place and moves the others to the front. At place 0 nothing is moved.
pub fn keep_from(buffer: &mut Vec<u8>, at: usize)
    requires { at ≤ length buffer.old.items }
    ensures { buffer.new.items ≡ drop at buffer.old.items }
{
    if at == 0 {
        return;
    }
    let kept = buffer.len() - at;
    buffer.copy_within(at.., 0);
    buffer.truncate(kept);
}
