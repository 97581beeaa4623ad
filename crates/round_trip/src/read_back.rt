//! Laws of printing and reading. These functions do nothing: their contracts are the laws.

ghost use Rattle.round_trip.specs.ReadBack.{
  PrintedIsLexed,
  PrintedIsReadBack,
  OnlyTheTreeIsReadBack,
  SameTreesSpellTheSame,
};

/// The canonical text of a tree that spells some tokens is lexed, and the tokens that it is lexed to are
/// spelled, whole, by a tree that is the same, spans aside, and by no other. The text is that tree's canonical
/// text too.
pub fn canonical_text_is_read_back()
    ensures lexed { PrintedIsLexed }
    ensures same { PrintedIsReadBack }
    ensures only { OnlyTheTreeIsReadBack }
{}

/// Trees that are the same, spans aside, spell the same tokens.
pub fn same_trees_spell_the_same()
    ensures { SameTreesSpellTheSame }
{}
