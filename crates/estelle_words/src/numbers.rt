//! The numbers that are the values of options.

ghost use Rattle.std.specs.Prelude.{◌≡◌, ◌<◌, ◌^◌};
ghost use Rattle.estelle_words.specs.Words.{is_decimal, number_in, greatest_seed};

/// Whether the text is 1 to 20 decimal digits.
fn is_decimal_text(text: &str) -> bool
    ensures { result ≡ is_decimal text.now }
{
    let bytes = text.as_bytes();
    if bytes.len() < 1 || 20 < bytes.len() {
        return false;
    }
    for byte in bytes {
        if !byte.is_ascii_digit() {
            return false;
        }
    }
    true
}

/// The number that the text writes, where it lies in the range.
pub fn number(text: &str, low: u32, high: u32) -> Option<u32>
    ensures { result ≡ number_in low high text.now }
{
    if !is_decimal_text(text) {
        return None;
    }
    match text.parse::<u32>() {
        Ok(number) => {
            if low <= number && number <= high {
                Some(number)
            } else {
                None
            }
        }
        Err(_) => None,
    }
}

/// The seed that the text writes.
pub fn seed(text: &str) -> Option<u64>
    ensures { result ≡ number_in 0 greatest_seed text.now }
{
    if !is_decimal_text(text) {
        return None;
    }
    match text.parse::<u64>() {
        Ok(number) => Some(number),
        Err(_) => None,
    }
}
