//! The number of lines that an argument is.

ghost use Rattle.command_words.specs.LineCounts.{AsksFor};
ghost use Rattle.std.specs.Prelude.{MatchOption, ℕ};

use itoa::Buffer;

/// The largest number of lines, which is the largest number of procedures of a file.
const MOST_LINES: u32 = 1024;

/// Returns the number of lines, from 1 to 1,024, that `word` is in digits without a leading zero,
/// or `None` if it is no such number.
pub fn line_count(word: &str) -> Option<u32>
    ensures { MatchOption result ((n : ℕ) → AsksFor n word.now → ⊥) (λ n. AsksFor n word.now) }
{
    let Ok(lines) = word.parse::<u32>() else {
        return None;
    };
    let mut buffer = Buffer::new();
    let is_plain = buffer.format(lines) == word;
    if is_plain && 1 <= lines && lines <= MOST_LINES {
        Some(lines)
    } else {
        None
    }
}
