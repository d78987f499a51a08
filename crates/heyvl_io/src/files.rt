ghost use Rattle.std.specs.Prelude.{◌≡◌, length, take, min};
ghost use Rattle.std.specs.List.{position};
ghost use Rattle.heyvl_io.specs.Files.{text_names, is_named, started_bytes, numbered_order};
ghost use Rattle.heyvl_io.specs.Order.{order_after};

// Returns the place of the first file with this name.
pub(crate) fn place_of(files: &[(String, Vec<u8>)], name: &str) -> Option<usize>
    ensures { result ≡ position (is_named name.now) files.now }
{
    files.iter().position(|file| name == file.0.as_str())
}

// Returns the order after a start of `name`.
pub(crate) fn next_order(
    files: &[(String, Vec<u8>)],
    order: Option<usize>,
    name: &str,
) -> Option<usize>
    ensures { numbered_order result
        ≡ order_after (text_names files.now) name.now (numbered_order order) }
{
    let started = order?;
    let next = files.get(started)?;
    if name == next.0.as_str() {
        Some(started + 1)
    } else {
        None
    }
}

// Returns the bytes of the started file.
pub(crate) fn bytes_at(files: &[(String, Vec<u8>)], started: Option<usize>) -> &[u8]
    ensures { result.now ≡ started_bytes files.now started }
{
    match started.and_then(|place| files.get(place)) {
        Some(file) => &file.1,
        None => &[],
    }
}

// Copies bytes to the start of `into`: as many as there are and fit, but at most `most`. Returns
// their number.
pub(crate) fn copy_front(from: &[u8], into: &mut [u8], most: usize) -> usize
    ensures count { result ≡ min (min (length from.now) (length into.old)) most }
    ensures front { take result into.new ≡ take result from.now }
{
    let count = from.len().min(into.len()).min(most);
    into[..count].copy_from_slice(&from[..count]);
    count
}
