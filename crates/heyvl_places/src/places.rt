//! Lines and columns of a file.

ghost use Rattle.heyvl_places.specs.Places.{place_at};
ghost use Rattle.std.specs.Prelude.{◌<◌, ◌^◌, ◌≡◌, ◌≤◌, length};

use std::fmt;

/// A line and a column of a file, both counted from 1. A column counts bytes.
#[derive(Clone, Copy, Debug, PartialEq, Eq)]
pub struct Place {
    pub line: u32,
    pub column: u32,
}

impl fmt::Display for Place {
    fn fmt<W: fmt::Write>(&self, f: &mut fmt::Formatter<W>) -> fmt::Result {
        write!(f, "{}:{}", self.line, self.column)
    }
}

/// Returns the line and column of the byte at `index`, or of the end of the file.
pub fn place_at(bytes: &[u8], index: u32) -> Place
    requires inside { index ≤ length bytes.now }
    requires short { length bytes.now < 2 ^ 31 }
    ensures { result ≡ place_at bytes.now index }
{
    let (before, _) = bytes.split_at(index as usize);
    let mut place = Place { line: 1, column: 1 };
    for byte in before {
        if *byte == b'\n' {
            place.line += 1;
            place.column = 1;
        } else {
            place.column += 1;
        }
    }
    place
}
