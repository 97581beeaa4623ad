//! Definitions, parameters, routines and blocks.

ghost use Rattle.std.specs.Prelude.{◌≡◌, ◌++◌, OnOk};
ghost use Rattle.std.specs.List.{flat_map};
ghost use Rattle.type_rules.specs.SpecificationSites as spec;

use crate::node::{Node, chain};
use crate::statements::stmts;
use crate::types::{const_site, typing};
use declaration_table::Table;
use estelle_tree::{
    Block, BlockDecl, ConstDef, Formal, Formals, Items, Routine, RoutineForm, Sequence, TypeDef,
    TypedNames,
};
use std::alloc::AllocError;
use type_rules::Site;

impl Node for ConstDef {
    ghost sites = { λ env x. (spec.const_def x).sites env };

    fn add_sites(&self, table: &Table, out: &mut Items<Site>) -> Result<(), AllocError> {
        const_site(table, &self.value, out)
    }
}

impl Node for TypeDef {
    ghost sites = { λ env x. (spec.type_def x).sites env };

    fn add_sites(&self, table: &Table, out: &mut Items<Site>) -> Result<(), AllocError> {
        let _denoted = typing(table, &self.type_expr, out)?;
        Ok(())
    }
}

impl Node for TypedNames {
    ghost sites = { λ env x. (spec.var_decl x).sites env };

    fn add_sites(&self, table: &Table, out: &mut Items<Site>) -> Result<(), AllocError> {
        let _denoted = typing(table, &self.type_expr, out)?;
        Ok(())
    }
}

impl Node for BlockDecl {
    ghost sites = { λ env x. (spec.block_decl_part x).sites env };

    fn add_sites(&self, table: &Table, out: &mut Items<Site>) -> Result<(), AllocError> {
        match self {
            BlockDecl::Const { defs, .. } => chain(defs.items(), table, out),
            BlockDecl::Types { defs, .. } => chain(defs.items(), table, out),
            BlockDecl::Var { vars, .. } => chain(vars.items(), table, out),
        }
    }
}

impl Node for Formal {
    ghost sites = { λ env x. spec.var_formals x };

    fn add_sites(&self, _table: &Table, out: &mut Items<Site>) -> Result<(), AllocError> {
        if self.is_var {
            return out.push(Site::VarFormal(self.span));
        }
        Ok(())
    }
}

fn formal_sites(
    table: &Table,
    formals: &Option<Formals>,
    out: &mut Items<Site>,
) -> Result<(), AllocError>
    ensures { OnOk result (out.new ≡ out.old ++ flat_map spec.var_formals (spec.formals_of formals.now)) }
{
    match formals {
        None => Ok(()),
        Some(formals) => chain(formals.formals.items(), table, out),
    }
}

fn result_sites(table: &Table, form: &RoutineForm, out: &mut Items<Site>) -> Result<(), AllocError>
    ensures { OnOk result (out.new ≡ out.old ++ spec.result_sites table.now form.now) }
{
    match form {
        RoutineForm::Procedure => Ok(()),
        RoutineForm::Function { result } => out.push(Site::ResultAt {
            at: result.span,
            type_: table.named_type(result),
        }),
    }
}

/// Where a routine is declared says nothing of its sites.
impl Node for Routine {
    ghost sites = { λ env x. (spec.routine 0 x).sites env };

    fn add_sites(&self, table: &Table, out: &mut Items<Site>) -> Result<(), AllocError> {
        formal_sites(table, &self.formals, out)?;
        result_sites(table, &self.form, out)?;
        chain(self.decls.items(), table, out)?;
        stmts(table, table.alloc, &self.body, out)
    }
}

impl Node for Block {
    ghost sites = { λ env x. (spec.block x).sites env };

    fn add_sites(&self, table: &Table, out: &mut Items<Site>) -> Result<(), AllocError> {
        chain(self.decls.items(), table, out)?;
        stmts(table, table.alloc, &self.body, out)
    }
}
