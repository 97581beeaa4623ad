//! Places of a text by line and column.

ghost use Rattle.std.specs.Prelude.{◌≡◌, ◌<◌, ◌≤◌, ◌==◌, ◌^◌, not, length};
ghost use Rattle.std.specs.List.{suffix_len};
ghost use Rattle.estelle_lexer.specs.Place.{line_of, column_of};

/// How many bytes stand after the last line feed.
fn bytes_since_line_feed(text: &[u8]) -> usize
    ensures count { result ≡ suffix_len (λ b. not (b == 10)) text.now }
    ensures within { result ≤ length text.now }
{
    let mut count = 0;
    for b in text {
        count = if *b == b'\n' { 0 } else { count + 1 };
    }
    count
}

/// The line and the column of a place, both counted from 1; a column is a byte, and a line ends with LF.
pub fn line_and_column(bytes: &[u8], at: u32) -> (u32, u32)
    requires short { length bytes.now < 2 ^ 31 }
    requires within { at ≤ length bytes.now }
    ensures line { result.0 ≡ line_of bytes.now at }
    ensures column { result.1 ≡ column_of bytes.now at }
{
    let before = &bytes[..at as usize];
    let line_feeds = before.iter().filter(|b| **b == b'\n').count();
    (
        line_feeds as u32 + 1,
        bytes_since_line_feed(before) as u32 + 1,
    )
}
