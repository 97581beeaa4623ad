//! The shape of the words after the command.

ghost use Rattle.std.specs.Prelude.{◌≡◌, map, is_some};
ghost use Rattle.estelle_words.specs.Words.{texts, word_of, long_word, pairs_of};
ghost use Rattle.estelle_words.specs.Shapes.{shape};

/// What a word looks like.
#[derive(Clone, Copy)]
pub enum Shape {
    /// `--name=value`
    Joined,
    /// `--name`
    Named,
    /// It does not begin with `-`.
    Plain,
    Other,
}

/// The same of a word that begins with `--`, by what follows.
fn long_shape(text: &[u8]) -> Shape
    ensures { result ≡ shape (long_word text.now) }
{
    if text.is_empty() {
        Shape::Other
    } else if text.contains(&b'=') {
        Shape::Joined
    } else {
        Shape::Named
    }
}

fn shape_of(word: &str) -> Shape
    ensures { result ≡ shape (word_of word.now) }
{
    let bytes = word.as_bytes();
    if bytes.starts_with(b"--") {
        long_shape(&bytes[2..])
    } else if bytes.starts_with(b"-") {
        Shape::Other
    } else {
        Shape::Plain
    }
}

/// Whether the words are options, each `--name=value`, or `--name` and then its value.
pub fn are_options(mut words: &[&str]) -> bool
    ensures { result ≡ is_some (pairs_of (map word_of (texts words.entry.now))) }
{
    while let [word, rest @ ..] = words {
        words = match shape_of(word) {
            Shape::Joined => rest,
            Shape::Named => {
                let [value, rest @ ..] = rest else {
                    return false;
                };
                let Shape::Plain = shape_of(value) else {
                    return false;
                };
                rest
            }
            Shape::Plain | Shape::Other => return false,
        };
    }
    true
}
