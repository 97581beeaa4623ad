//! Definitions, and the variables of a block or routine (ISO 7185, 6.3 to 6.5).

ghost use Rattle.std.specs.Prelude.{◌≡◌, ◌+◌, ◌++◌, map, IfOk, OnOk};
ghost use Rattle.std.specs.List.{flat_map};
ghost use Rattle.estelle_model.specs.Denoted.{sections_declare, section_types, count_names};
ghost use Rattle.estelle_model.specs.Definitions as spec;
ghost use Rattle.meaning_table.specs.Known.{meanings_of, declare_all};
ghost use Rattle.meaning_table.specs.Kinds.{numbered_behind};
ghost use Rattle.meaning_table.specs.declared.kinds.VariableKind.TheVariants.{Local};

use crate::node::{Node, chain};
use estelle_model::{Meaning, Type};
use estelle_tree::{BlockDecl, ConstDef, Items, Sequence, TypeDef};
use meaning_table::{
    Base, Table, VariableKind, const_meaning, declare_sections, declare_type, declare_types,
    push_types, type_of,
};
use std::alloc::AllocError;

impl Node for ConstDef {
    ghost declares = { spec.const_def };

    fn declare(&self, table: &mut Table) -> Result<(), AllocError> {
        let meaning = const_meaning(table, &self.value)?;
        table.declare(self.name.span.start, meaning)
    }
}

impl Node for TypeDef {
    ghost declares = { spec.type_def };

    fn declare(&self, table: &mut Table) -> Result<(), AllocError> {
        declare_type(table, &self.type_expr)?;
        let denoter = type_of(table, &self.type_expr)?;
        table.declare(self.name.span.start, Meaning::TypeName(denoter))
    }
}

impl Node for BlockDecl {
    ghost declares = { spec.definitions };

    fn declare(&self, table: &mut Table) -> Result<(), AllocError> {
        match self {
            BlockDecl::Const { defs, .. } => chain(defs.items(), table),
            BlockDecl::Types { defs, .. } => chain(defs.items(), table),
            BlockDecl::Var { vars, .. } => declare_types(table, vars.items()),
        }
    }
}

/// The variables of a definition part.
fn declare_own<B: Base>(
    table: &mut Table,
    base: &B,
    first: u32,
    decl: &BlockDecl,
) -> Result<u32, AllocError>
    ensures { IfOk result (λ next. (table.new ≡ declare_all table.old (sections_declare (numbered_behind Local (B.base base.now)) first (spec.variables_of decl.now))) × (next ≡ first + count_names (spec.variables_of decl.now))) }
{
    match decl {
        BlockDecl::Var { vars, .. } => {
            declare_sections(table, base, VariableKind::Local, first, vars.items())
        }
        _ => Ok(first),
    }
}

/// The variables of a block or routine, numbered from there. It answers the number behind them.
pub fn declare_locals<B: Base>(
    table: &mut Table,
    base: &B,
    first: u32,
    decls: &[BlockDecl],
) -> Result<u32, AllocError>
    ensures { IfOk result (λ next. (table.new ≡ declare_all table.old (sections_declare (numbered_behind Local (B.base base.now)) first (spec.local_variables decls.now))) × (next ≡ first + count_names (spec.local_variables decls.now))) }
{
    let mut number = first;
    for decl in decls {
        number = declare_own(table, base, number, decl)?;
    }
    Ok(number)
}

fn push_own_types(table: &Table, decl: &BlockDecl, out: &mut Items<Type>) -> Result<(), AllocError>
    ensures { OnOk result (out.new ≡ out.old ++ section_types (meanings_of table.now) (spec.variables_of decl.now)) }
{
    match decl {
        BlockDecl::Var { vars, .. } => push_types(table, vars.items(), out),
        _ => Ok(()),
    }
}

/// The types of the variables of a block or routine.
pub fn local_types(table: &Table, decls: &[BlockDecl]) -> Result<Items<Type>, AllocError>
    ensures { IfOk result (λ types. types ≡ section_types (meanings_of table.now) (spec.local_variables decls.now)) }
{
    let mut types = Items::new(table.alloc);
    for decl in decls {
        push_own_types(table, decl, &mut types)?;
    }
    Ok(types)
}
