//! Names with their type: variables and parameters.

ghost use Rattle.std.specs.Prelude.{◌≡◌, ◌+◌, ◌∷◌, [], ◌++◌, length, map, replicate, IfOk, OnOk};
ghost use Rattle.estelle_model.specs.Denoted as spec;
ghost use Rattle.estelle_model.specs.Definitions.{formal_section};
ghost use Rattle.meaning_table.specs.Known.{meanings_of, declare_all};
ghost use Rattle.meaning_table.specs.Kinds as kinds;
ghost use Rattle.meaning_table.specs.Sections as sections;

use crate::declaring::{behind, declare_variables};
use crate::kinds::VariableKind;
use crate::table::Table;
use crate::types::{named_type, type_of};
use estelle_model::Type;
use estelle_tree::{Formal, Items, Name, ParamGroup, Sequence, TypedNames};
use std::alloc::AllocError;

/// Names of one type.
pub trait Section {
    ghost section: { Self → spec.Section };

    fn names(&self) -> &[Name]
        ensures { result.now ≡ (section self.now).0 };

    /// Their type.
    fn denotes(&self, table: &Table) -> Result<Type, AllocError>
        ensures { IfOk result (λ denoter. denoter ≡ (section self.now).1.denotes (meanings_of table.now)) };
}

impl Section for TypedNames {
    ghost section = { spec.section };

    fn names(&self) -> &[Name] {
        self.names.names.items()
    }

    fn denotes(&self, table: &Table) -> Result<Type, AllocError> {
        type_of(table, &self.type_expr)
    }
}

impl Section for Formal {
    ghost section = { formal_section };

    fn names(&self) -> &[Name] {
        self.names.names.items()
    }

    fn denotes(&self, table: &Table) -> Result<Type, AllocError> {
        named_type(table, &self.type_name)
    }
}

impl Section for ParamGroup {
    ghost section = { sections.group_section };

    fn names(&self) -> &[Name] {
        self.names.names.items()
    }

    fn denotes(&self, table: &Table) -> Result<Type, AllocError> {
        named_type(table, &self.type_name)
    }
}

/// How many variables are numbered before.
pub trait Base {
    ghost use Rattle.std.specs.Prelude.{ℕ};
    ghost use Rattle.estelle_model.specs.Meant.{Meanings};

    ghost base: { Self → Meanings → ℕ };

    fn count(&self, table: &Table) -> Result<u32, AllocError>
        ensures { IfOk result (λ count. count ≡ base self.now (meanings_of table.now)) };
}

/// None.
#[derive(Drop)]
pub struct Alone;

impl Base for Alone {
    ghost base = { λ alone known. 0 };

    fn count(&self, _table: &Table) -> Result<u32, AllocError> {
        Ok(0)
    }
}

/// The names of a section, numbered from there behind others. It answers the number behind them.
pub fn declare_section<S: Section, B: Base>(
    table: &mut Table,
    base: &B,
    kind: VariableKind,
    number: u32,
    section: &S,
) -> Result<u32, AllocError>
    ensures { IfOk result (λ next. (table.new ≡ declare_all table.old (spec.section_names (kinds.numbered_behind kind (B.base base.now)) number (S.section section.now) ∷ [])) × (next ≡ number + length (S.section section.now).0)) }
{
    let first = behind(base.count(table)?, number as usize)?;
    let denoter = section.denotes(table)?;
    let names = section.names();
    declare_variables(table, kind, names, first, &denoter)?;
    behind(number, names.len())
}

/// The names of sections one after another. It answers the number behind them.
pub fn declare_sections<S: Section, B: Base>(
    table: &mut Table,
    base: &B,
    kind: VariableKind,
    first: u32,
    sections: &[S],
) -> Result<u32, AllocError>
    ensures { IfOk result (λ next. (table.new ≡ declare_all table.old (spec.sections_declare (kinds.numbered_behind kind (B.base base.now)) first (map S.section sections.now))) × (next ≡ first + spec.count_names (map S.section sections.now))) }
{
    let mut number = first;
    for section in sections {
        number = declare_section(table, base, kind, number, section)?;
    }
    Ok(number)
}

fn push_shared(denoter: &Type, count: usize, out: &mut Items<Type>) -> Result<(), AllocError>
    ensures { OnOk result (out.new ≡ out.old ++ replicate count denoter.now) }
{
    for _ in 0..count {
        out.push(denoter.share()?)?;
    }
    Ok(())
}

/// The type of each name of sections.
pub fn push_types<S: Section>(
    table: &Table,
    sections: &[S],
    out: &mut Items<Type>,
) -> Result<(), AllocError>
    ensures { OnOk result (out.new ≡ out.old ++ spec.section_types (meanings_of table.now) (map S.section sections.now)) }
{
    for section in sections {
        let denoter = section.denotes(table)?;
        push_shared(&denoter, section.names().len(), out)?;
    }
    Ok(())
}
