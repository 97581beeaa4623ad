//! Laws of the tokens that trees spell, each as the contract of a function that does nothing.

ghost use Rattle.estelle_printer.specs.Laws.{CanonicalTextIsLexed, SpellsOneList};

/// A tree spells at most one list of tokens, their places aside.
pub fn spells_one_list()
    ensures { SpellsOneList }
{}

/// The canonical text is lexed to the tokens that the tree spells, their places aside, and only blanks
/// stand behind them.
pub fn canonical_text_is_lexed()
    ensures { CanonicalTextIsLexed }
{}
