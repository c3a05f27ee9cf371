//! Lines, counted from 1 by line feeds.

ghost use Rattle.std.specs.Prelude.{◌≡◌, ◌≤◌, ◌==◌, length, count_by};
ghost use Rattle.hip_tokens.specs.Lines.{last_line};

fn line_feeds(text: &[u8]) -> usize
    ensures value { result ≡ count_by (λ b. b == 10) text.now }
    ensures within { result ≤ length text.now }
{
    text.iter().filter(|b| **b == b'\n').count()
}

/// The line of the last byte, or 1 of an empty text. A line feed is on the line that it ends.
pub fn last_line(text: &[u8]) -> u64
    ensures { result ≡ last_line text.now }
{
    if text.is_empty() {
        return 1;
    }
    1 + line_feeds(&text[..text.len() - 1]) as u64
}
