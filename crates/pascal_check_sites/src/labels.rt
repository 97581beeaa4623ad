//! The labels of a `case`.

ghost use Rattle.std.specs.Prelude.{◌≡◌, ◌++◌, [], map, IfOk, OnOk};
ghost use Rattle.std.specs.Cmp.{on_per, on_equiv};
ghost use Rattle.std.specs.Ordering.{on};
ghost use Rattle.type_rules.specs.Meanings.{const_value};
ghost use Rattle.type_rules.specs.StatementSites as spec;
ghost use Rattle.type_rules.specs.Types.{same_value};
ghost use Rattle.pascal_check_sites.specs.LabelHash.{value_input};
ghost use Rattle.pascal_check_sites.specs.LabelLaws as laws;

use declaration_table::Table;
use estelle_tree::{Const, Items};
use indexmap::IndexSet;
use std::alloc::{AllocError, Global};
use std::hash::{Hash, Hasher};
use std::marker::Model;
use type_rules::{Host, PascalType, Site, Value, same_value};

/// The value of a label, by which labels are found again.
#[derive(Clone, Copy)]
pub struct LabelValue(Value);

impl PartialEq for LabelValue {
    ghost eq = { on (λ a. a.0) same_value };

    ghost laws = { on_per (λ a. a.0) laws.partial };

    fn eq(&self, other: &LabelValue) -> bool {
        same_value(self.0, other.0)
    }
}

impl Eq for LabelValue {
    ghost laws = { on_equiv (λ a. a.0) laws.equivalence };
}

impl Hash for LabelValue {
    ghost hash_input = { λ a. value_input a.0 };

    ghost respects_eq = { λ a b. laws.alike a.0 b.0 };

    fn hash<H: Hasher>(&self, state: &mut H) {
        // An ordinal may be that of a value in each of many enumerations.
        if let Host::Enumeration { at } = self.0.host {
            state.write_u32(at.start);
        }
        state.write_i64(self.0.ordinal);
    }
}

/// The values of the labels so far, each once.
#[derive(Drop)]
pub struct LabelValues {
    values: IndexSet<LabelValue>,
}

impl Model for LabelValues {
    ghost use Rattle.std.specs.Prelude.{List, map};
    ghost use Rattle.type_rules.specs.declared.types.Value.{Value as PascalValue};

    ghost Value = { List PascalValue };

    ghost view = { λ l. map (λ k. k.0) l.values.keys };
}

impl LabelValues {
    /// There is no label yet.
    pub fn new(alloc: Global) -> LabelValues
        ensures { result ≡ [] }
    {
        LabelValues {
            values: IndexSet::new(alloc),
        }
    }

    /// Adds the value of a label, where it has one, and says whether an earlier label has that too.
    pub fn add(&mut self, value: Option<Value>) -> Result<bool, AllocError>
        ensures values { OnOk result (self.new ≡ spec.with_value self.old value) }
        ensures repeated { IfOk result (λ r. r ≡ spec.is_repeated self.old value) }
    {
        match value {
            None => Ok(false),
            Some(value) => {
                let is_new = self.values.insert(LabelValue(value))?;
                Ok(!is_new)
            }
        }
    }
}

/// One label, behind those with these values.
fn label(
    table: &Table,
    selector: Option<PascalType>,
    constant: &Const,
    values: &mut LabelValues,
    out: &mut Items<Site>,
) -> Result<(), AllocError>
    ensures values { OnOk result (values.new ≡ spec.with_value values.old (const_value table.now constant.now)) }
    ensures sites { OnOk result (out.new ≡ out.old ++ spec.label_sites table.now selector values.old constant.now) }
{
    let at = constant.span();
    let value = table.const_value(constant);
    let is_repeated = values.add(value)?;
    out.push(Site::LabelAt {
        at,
        selector,
        value,
        is_repeated,
    })?;
    out.push(Site::ConstantAt { at, value })
}

/// The labels of one case, behind those with these values.
pub fn labels(
    table: &Table,
    selector: Option<PascalType>,
    constants: &[Const],
    values: &mut LabelValues,
    out: &mut Items<Site>,
) -> Result<(), AllocError>
    ensures values { OnOk result (values.new ≡ spec.with_labels table.now values.old constants.now) }
    ensures sites { OnOk result (out.new ≡ out.old ++ spec.labels table.now selector values.old constants.now) }
{
    for constant in constants {
        label(table, selector, constant, values, out)?;
    }
    Ok(())
}
