use crate::tree::{Const, Name, NameList, Stmts, TypeExpr, TypedNames};
use crate::{Items, Span};

/// A constant definition (ISO 7185, 6.3).
///
/// `NAME "=" Const ";"`
pub struct ConstDef {
    pub name: Name,
    pub value: Const,
}

impl Drop for ConstDef {
    fn drop(self) {
        let ConstDef { name: _, value: _ } = self;
    }
}

/// A type definition (ISO 7185, 6.4.1).
///
/// `NAME "=" Type ";"`
pub struct TypeDef {
    pub name: Name,
    pub type_expr: TypeExpr,
}

impl Drop for TypeDef {
    fn drop(self) {
        let TypeDef {
            name: _,
            type_expr: _,
        } = self;
    }
}

/// A definition part of a block or routine (ISO 7185, 6.2.1).
///
/// `BlockDecl = const {NAME "=" Const ";"}+ | type {NAME "=" Type ";"}+ | var {Names ":" Type ";"}+`
#[derive(Drop)]
pub enum BlockDecl {
    Const { defs: Items<ConstDef>, span: Span },
    Types { defs: Items<TypeDef>, span: Span },
    Var { vars: Items<TypedNames>, span: Span },
}

/// A procedure or function (ISO 7185, 6.6.1 and 6.6.2).
///
/// `Routine = procedure NAME [Formals] ";" {BlockDecl} begin Stmts end ";"
///          | function NAME [Formals] ":" NAME ";" {BlockDecl} begin Stmts end ";"`
pub struct Routine {
    pub name: Name,
    pub formals: Option<Formals>,
    pub form: RoutineForm,
    pub decls: Items<BlockDecl>,
    pub body: Stmts,
    pub span: Span,
}

impl Drop for Routine {
    fn drop(self) {
        let Routine {
            name: _,
            formals: _,
            form: _,
            decls: _,
            body: _,
            span: _,
        } = self;
    }
}

/// Which of the two a routine is.
pub enum RoutineForm {
    Procedure,
    /// With the name of its result type.
    Function { result: Name },
}

impl Drop for RoutineForm {
    fn drop(self) {
        match self {
            RoutineForm::Procedure => {}
            RoutineForm::Function { result: _ } => {}
        }
    }
}

/// A formal parameter list (ISO 7185, 6.6.3.1).
///
/// `Formals = "(" Formal {";" Formal} ")"`
pub struct Formals {
    pub formals: Items<Formal>,
    pub span: Span,
}

impl Drop for Formals {
    fn drop(self) {
        let Formals {
            formals: _,
            span: _,
        } = self;
    }
}

/// Formal parameters of one type (ISO 7185, 6.6.3.1).
///
/// `Formal = [var] Names ":" NAME`
pub struct Formal {
    /// Whether these are variable parameters.
    pub is_var: bool,
    pub names: NameList,
    pub type_name: Name,
    pub span: Span,
}

impl Drop for Formal {
    fn drop(self) {
        let Formal {
            is_var: _,
            names: _,
            type_name: _,
            span: _,
        } = self;
    }
}
