//! What the grammar tells tokens apart by: which symbol or reserved word it is, or of which other kind.

ghost use Rattle.std.specs.Prelude.{◌≡◌, map};
ghost use Rattle.std.specs.Str.{bytes_eq};
ghost use Rattle.estelle_tree.specs.Kind as spec;

use crate::{Symbol, Token, Word};

/// A terminal of the grammar.
#[derive(Clone, Copy, Debug, PartialEq, Eq)]
pub enum Kind {
    /// The end of the tokens.
    Nothing,
    /// An identifier: a word that is not reserved.
    Name,
    Number,
    Char,
    Plus,
    Minus,
    Star,
    Equal,
    NotEqual,
    Less,
    AtMost,
    Greater,
    AtLeast,
    OpenParenthesis,
    CloseParenthesis,
    OpenBracket,
    CloseBracket,
    Dot,
    Dots,
    Comma,
    Semicolon,
    Colon,
    Becomes,
    Activity,
    All,
    And,
    Any,
    Array,
    Attach,
    Begin,
    Body,
    By,
    Case,
    Channel,
    Common,
    Connect,
    Const,
    Default,
    Delay,
    Detach,
    Disconnect,
    Div,
    Do,
    Downto,
    Else,
    End,
    Exist,
    Export,
    External,
    File,
    For,
    Forone,
    From,
    Function,
    Goto,
    If,
    In,
    Individual,
    Init,
    Initialize,
    Ip,
    Label,
    Mod,
    Module,
    Modvar,
    NameWord,
    Nil,
    Not,
    Of,
    Or,
    Otherwise,
    Output,
    Packed,
    Primitive,
    Priority,
    Procedure,
    Process,
    Program,
    Provided,
    Queue,
    Record,
    Release,
    Repeat,
    Same,
    Set,
    Specification,
    State,
    Stateset,
    Suchthat,
    Systemactivity,
    Systemprocess,
    Terminate,
    Then,
    Timescale,
    To,
    Trans,
    Type,
    Until,
    Var,
    When,
    While,
    With,
}

/// The reserved words, those of Pascal (ISO 7185, 6.1.2) and of Estelle, in alphabetical order.
pub const RESERVED: [(&[u8], Kind); 79] = [
    (b"activity", Kind::Activity),
    (b"all", Kind::All),
    (b"and", Kind::And),
    (b"any", Kind::Any),
    (b"array", Kind::Array),
    (b"attach", Kind::Attach),
    (b"begin", Kind::Begin),
    (b"body", Kind::Body),
    (b"by", Kind::By),
    (b"case", Kind::Case),
    (b"channel", Kind::Channel),
    (b"common", Kind::Common),
    (b"connect", Kind::Connect),
    (b"const", Kind::Const),
    (b"default", Kind::Default),
    (b"delay", Kind::Delay),
    (b"detach", Kind::Detach),
    (b"disconnect", Kind::Disconnect),
    (b"div", Kind::Div),
    (b"do", Kind::Do),
    (b"downto", Kind::Downto),
    (b"else", Kind::Else),
    (b"end", Kind::End),
    (b"exist", Kind::Exist),
    (b"export", Kind::Export),
    (b"external", Kind::External),
    (b"file", Kind::File),
    (b"for", Kind::For),
    (b"forone", Kind::Forone),
    (b"from", Kind::From),
    (b"function", Kind::Function),
    (b"goto", Kind::Goto),
    (b"if", Kind::If),
    (b"in", Kind::In),
    (b"individual", Kind::Individual),
    (b"init", Kind::Init),
    (b"initialize", Kind::Initialize),
    (b"ip", Kind::Ip),
    (b"label", Kind::Label),
    (b"mod", Kind::Mod),
    (b"module", Kind::Module),
    (b"modvar", Kind::Modvar),
    (b"name", Kind::NameWord),
    (b"nil", Kind::Nil),
    (b"not", Kind::Not),
    (b"of", Kind::Of),
    (b"or", Kind::Or),
    (b"otherwise", Kind::Otherwise),
    (b"output", Kind::Output),
    (b"packed", Kind::Packed),
    (b"primitive", Kind::Primitive),
    (b"priority", Kind::Priority),
    (b"procedure", Kind::Procedure),
    (b"process", Kind::Process),
    (b"program", Kind::Program),
    (b"provided", Kind::Provided),
    (b"queue", Kind::Queue),
    (b"record", Kind::Record),
    (b"release", Kind::Release),
    (b"repeat", Kind::Repeat),
    (b"same", Kind::Same),
    (b"set", Kind::Set),
    (b"specification", Kind::Specification),
    (b"state", Kind::State),
    (b"stateset", Kind::Stateset),
    (b"suchthat", Kind::Suchthat),
    (b"systemactivity", Kind::Systemactivity),
    (b"systemprocess", Kind::Systemprocess),
    (b"terminate", Kind::Terminate),
    (b"then", Kind::Then),
    (b"timescale", Kind::Timescale),
    (b"to", Kind::To),
    (b"trans", Kind::Trans),
    (b"type", Kind::Type),
    (b"until", Kind::Until),
    (b"var", Kind::Var),
    (b"when", Kind::When),
    (b"while", Kind::While),
    (b"with", Kind::With),
];

pub(crate) fn is_same(a: &[u8], b: &[u8]) -> bool
    ensures { result ≡ bytes_eq a.now b.now }
{
    a == b
}

fn lookup(mut table: &[(&[u8], Kind)], word: &[u8]) -> Kind
    ensures { result ≡ spec.lookup (map (λ k. (k.0.now, k.1)) table.entry.now) word.now }
{
    while let [entry, rest @ ..] = table {
        if is_same(entry.0, word) {
            return entry.1;
        }
        table = rest;
    }
    Kind::Name
}

#[tactic(auto, unfolding(crate::specs::Kind::kind_of_word))]
fn kind_of_word(word: &[u8]) -> Kind
    ensures { result ≡ spec.kind_of_word word.now }
{
    lookup(&RESERVED, word)
}

fn kind_of_symbol(symbol: Symbol) -> Kind
    ensures { result ≡ spec.kind_of_symbol symbol }
{
    match symbol {
        Symbol::Plus => Kind::Plus,
        Symbol::Minus => Kind::Minus,
        Symbol::Star => Kind::Star,
        Symbol::Equal => Kind::Equal,
        Symbol::NotEqual => Kind::NotEqual,
        Symbol::Less => Kind::Less,
        Symbol::AtMost => Kind::AtMost,
        Symbol::Greater => Kind::Greater,
        Symbol::AtLeast => Kind::AtLeast,
        Symbol::OpenParenthesis => Kind::OpenParenthesis,
        Symbol::CloseParenthesis => Kind::CloseParenthesis,
        Symbol::OpenBracket => Kind::OpenBracket,
        Symbol::CloseBracket => Kind::CloseBracket,
        Symbol::Dot => Kind::Dot,
        Symbol::Dots => Kind::Dots,
        Symbol::Comma => Kind::Comma,
        Symbol::Semicolon => Kind::Semicolon,
        Symbol::Colon => Kind::Colon,
        Symbol::Becomes => Kind::Becomes,
    }
}

/// Whether a word is an identifier: it is not reserved.
#[tactic(auto, unfolding(crate::specs::Kind::is_identifier))]
pub fn is_identifier(word: &Word) -> bool
    ensures { result ≡ spec.is_identifier word.now }
{
    matches!(kind_of_word(word.items()), Kind::Name)
}

/// The terminal that a token is.
pub fn kind_of(token: &Token) -> Kind
    ensures { result ≡ spec.kind_of token.now }
{
    match token {
        Token::Word(word) => kind_of_word(word.items()),
        Token::Number(_) => Kind::Number,
        Token::Char(_) => Kind::Char,
        Token::Symbol(symbol) => kind_of_symbol(*symbol),
    }
}
