use crate::tree::{Name, NameList};
use crate::{Boxed, Items, Span};

/// A sign before a constant or a term (ISO 7185, 6.1.5).
///
/// `"+" | "-"`
#[derive(Clone, Copy, Debug, PartialEq, Eq)]
pub enum Sign {
    Plus,
    Minus,
}

/// A constant (ISO 7185, 6.3).
///
/// `Const = ["+" | "-"] (NUMBER | NAME) | CHAR`
pub enum Const {
    /// `["+" | "-"] NUMBER`
    Number {
        sign: Option<Sign>,
        value: i64,
        span: Span,
    },
    /// `["+" | "-"] NAME`
    Name {
        sign: Option<Sign>,
        name: Name,
        span: Span,
    },
    /// `CHAR`
    Char {
        value: u8,
        span: Span,
    },
}

impl Drop for Const {
    fn drop(self) {
        match self {
            Const::Number {
                sign: _,
                value: _,
                span: _,
            } => {}
            Const::Name {
                sign: _,
                name: _,
                span: _,
            } => {}
            Const::Char { value: _, span: _ } => {}
        }
    }
}

/// An ordinal type (ISO 7185, 6.4.2).
///
/// `Ord = NAME | "(" Names ")" | Const ".." Const`
pub enum Ordinal {
    /// `NAME`, with the span of its name.
    Name(Name),
    /// `"(" Names ")"`: an enumerated type (ISO 7185, 6.4.2.3).
    Enumeration { names: NameList, span: Span },
    /// `Const ".." Const`: a subrange type (ISO 7185, 6.4.2.4).
    Subrange { low: Const, high: Const, span: Span },
}

impl Drop for Ordinal {
    fn drop(self) {
        match self {
            Ordinal::Name(_) => {}
            Ordinal::Enumeration { names: _, span: _ } => {}
            Ordinal::Subrange {
                low: _,
                high: _,
                span: _,
            } => {}
        }
    }
}

/// A type denoter (ISO 7185, 6.4.1).
///
/// `Type = Ord | [packed] (array "[" Ord {"," Ord} "]" of Type | record Fields end | set of Ord)`
#[cycle(types)]
pub enum TypeExpr {
    /// `Ord`, with the span of its ordinal type.
    Ordinal(Ordinal),
    /// `[packed] array "[" Ord {"," Ord} "]" of Type` (ISO 7185, 6.4.3.2)
    Array {
        packed: bool,
        indices: Items<Ordinal>,
        component: Boxed<TypeExpr>,
        span: Span,
    },
    /// `[packed] record Fields end` (ISO 7185, 6.4.3.3)
    Fields {
        packed: bool,
        fields: Fields,
        span: Span,
    },
    /// `[packed] set of Ord` (ISO 7185, 6.4.3.4)
    Set {
        packed: bool,
        base: Ordinal,
        span: Span,
    },
}

impl Drop for TypeExpr {
    #[cycle(drop_types)]
    fn drop(self) {
        match self {
            TypeExpr::Ordinal(_) => {}
            TypeExpr::Array {
                packed: _,
                indices: _,
                component: _,
                span: _,
            } => {}
            TypeExpr::Fields {
                packed: _,
                fields: _,
                span: _,
            } => {}
            TypeExpr::Set {
                packed: _,
                base: _,
                span: _,
            } => {}
        }
    }
}

/// The field list of a record (ISO 7185, 6.4.3.3).
///
/// `Fields = Names ":" Type {";" Names ":" Type} [";"]`
#[cycle(types)]
pub struct Fields {
    pub sections: Items<TypedNames>,
    /// Whether a semicolon stands after the last section.
    pub semicolon: bool,
    pub span: Span,
}

impl Drop for Fields {
    #[cycle(drop_types)]
    fn drop(self) {
        let Fields {
            sections: _,
            semicolon: _,
            span: _,
        } = self;
    }
}

/// The names of one type in a variable declaration, an export or a record (ISO 7185, 6.5.1).
///
/// `Names ":" Type`
#[cycle(types)]
pub struct TypedNames {
    pub names: NameList,
    pub type_expr: TypeExpr,
}

impl Drop for TypedNames {
    #[cycle(drop_types)]
    fn drop(self) {
        let TypedNames {
            names: _,
            type_expr: _,
        } = self;
    }
}
