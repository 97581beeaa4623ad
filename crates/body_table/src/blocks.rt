//! Blocks, and the clauses before them (ISO/IEC 9074).

ghost use Rattle.std.specs.Prelude.{◌≡◌, map, length, IfOk, OnOk};
ghost use Rattle.std.specs.List.{flat_map};
ghost use Rattle.estelle_model.specs.Denoted.{ordinal_declares};
ghost use Rattle.estelle_model.specs.Definitions as spec;
ghost use Rattle.meaning_table.specs.Known.{meanings_of, declare_all};
ghost use Rattle.body_table.specs.Received as received;

use crate::definitions::declare_locals;
use crate::node::chain;
use estelle_model::Meaning;
use estelle_tree::{AnyDom, Block, Clause, Name, Sequence};
use meaning_table::{Base, Table, behind, declare_ordinal};
use std::alloc::AllocError;

/// How many parameters an interaction has.
fn count_received(meaning: &Meaning) -> usize
    ensures { result ≡ length (spec.types_received meaning.now) }
{
    match meaning {
        Meaning::Interaction(kind) => kind.parameters.len(),
        _ => 0,
    }
}

/// The interactions of the `when` clauses before a block.
#[derive(Drop)]
pub struct Received<'t> {
    pub interactions: &'t [&'t Name],
}

impl<'t> Base for Received<'t> {
    ghost base = { λ r known. length (received.types_of known (map (λ x. x.now) r.interactions.now)) };

    fn count(&self, table: &Table) -> Result<u32, AllocError> {
        let mut count = 0;
        for interaction in self.interactions {
            count = behind(count, count_received(table.meaning(interaction)))?;
        }
        Ok(count)
    }
}

/// A block: its own variables are numbered behind the parameters of the interaction.
pub fn declare_block(
    table: &mut Table,
    interactions: &[&Name],
    block: &Block,
) -> Result<(), AllocError>
    ensures { OnOk result (table.new ≡ declare_all table.old (received.block_behind (map (λ x. x.now) interactions.now) block.now)) }
{
    chain(block.decls.items(), table)?;
    declare_locals(table, &Received { interactions }, 0, block.decls.items())?;
    Ok(())
}

fn declare_domains(table: &mut Table, domains: &[AnyDom]) -> Result<(), AllocError>
    ensures { OnOk result (table.new ≡ declare_all table.old (flat_map (λ d. ordinal_declares d.domain) domains.now)) }
{
    for any in domains {
        declare_ordinal(table, &any.domain)?;
    }
    Ok(())
}

/// The values of the enumerations in the domains of an `any` clause.
pub fn declare_clause(table: &mut Table, clause: &Clause) -> Result<(), AllocError>
    ensures { OnOk result (table.new ≡ declare_all table.old (spec.clause_declares clause.now)) }
{
    match clause {
        Clause::Any { domains, .. } => declare_domains(table, domains.items()),
        _ => Ok(()),
    }
}
