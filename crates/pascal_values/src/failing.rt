/// Why no value was read.
#[derive(Clone, Copy, Debug, PartialEq, Eq)]
pub enum ValueError {
    /// No text of a value begins here.
    NoValue,
    Memory,
}
