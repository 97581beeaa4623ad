//! Laws of lexing, for callers that have no text at hand.

ghost use Rattle.std.specs.Prelude.{◌≡◌, ◌≤◌, List, ℕ, length, ◌⊎◌};
ghost use Rattle.estelle_tree.specs.declared.token.Placed.{Placed};
ghost use Rattle.estelle_tree.specs.Lexed.{IsLexed, IsLexicalErrorAt, FollowOneAnother};

/// A text has one list of tokens and one place after them, and one that has an error has none.
pub fn unique_tokens()
    ensures list { (bytes : List ℕ) (items others : List Placed) (rest place : ℕ)
        → IsLexed bytes items rest → IsLexed bytes others place
        → (items ≡ others) × (rest ≡ place) }
    ensures error { (bytes : List ℕ) (place other : ℕ)
        → IsLexicalErrorAt bytes place → IsLexicalErrorAt bytes other → place ≡ other }
    ensures apart { (bytes : List ℕ) (items : List Placed) (rest place : ℕ)
        → IsLexed bytes items rest → IsLexicalErrorAt bytes place → ⊥ }
{}

/// Each text has tokens or an error.
pub fn tokens_or_error()
    ensures { (bytes : List ℕ)
        → ((items : List Placed) × (rest : ℕ) × IsLexed bytes items rest)
        ⊎ ((place : ℕ) × IsLexicalErrorAt bytes place) }
{}

/// The spans of a text's tokens are not empty, and follow one another within the text.
pub fn spans_follow_one_another()
    ensures { (bytes : List ℕ) (items : List Placed) (rest : ℕ) → IsLexed bytes items rest
        → FollowOneAnother 0 items rest × (length items ≤ rest) × (rest ≤ length bytes) }
{}
