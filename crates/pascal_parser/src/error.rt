/// Why no node is answered.
#[derive(Debug, Drop)]
pub enum SyntaxError {
    /// The place, in the list of tokens, after the longest piece that begins a node.
    At(u32),
    Memory,
}
