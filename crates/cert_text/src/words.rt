//! Texts cut at a separator.

ghost use Rattle.std.specs.Prelude.{◌≡◌, ◌++◌, ◌≢◌, All};
ghost use Rattle.cert_text.specs.internal.Words.{IsEndOrAt};

/// Cuts `bytes` before the first `mark`, or at the end if there is none.
pub fn cut(bytes: &[u8], mark: u8) -> (&[u8], &[u8])
    ensures parts { bytes.now ≡ result.0.now ++ result.1.now }
    ensures before { All (λ byte. byte ≢ mark) result.0.now }
    ensures from_mark { IsEndOrAt mark result.1.now }
{
    let place = bytes.iter().position(|byte| *byte == mark);
    bytes.split_at(place.unwrap_or(bytes.len()))
}
