//! Comments.

ghost use Rattle.heyvl_syntax.specs.internal.Fronts.{first_close};
ghost use Rattle.std.specs.Prelude.{◌+◌, ◌≡◌, ◌≤◌, IfSome, length};

/// Returns the number of bytes before the first `*/`, or `None` if there is none.
pub(crate) fn first_close(bytes: &[u8]) -> Option<usize>
    ensures value { result ≡ first_close bytes.now }
    ensures within { IfSome result (λ inner. inner + 2 ≤ length bytes.now) }
{
    let mut rest = bytes;
    let mut inner = 0;
    'bytes: while let Some((_, behind)) = rest.split_first() {
        if rest.starts_with(b"*/") {
            return Some(inner);
        }
        inner += 1;
        rest = behind;
    }
    None
}
