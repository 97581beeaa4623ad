//! The relational operators (ISO 7185, 6.7.2.5).

ghost use Rattle.std.specs.Prelude.{◌≡◌};
ghost use Rattle.estelle_model.specs.Operators.{contains, related};
ghost use Rattle.estelle_tree.specs.declared.tree.expression.Relation.TheVariants as relation;
ghost use Rattle.body_values.specs.Gives.{Gives};

use crate::ordinals::ordinal_of;
use crate::stop::Stop;
use estelle_tree::Relation;
use pascal_values::{Members, Relation as Comparing, Value, compare, has};

/// A relational operator.
pub fn related(op: Relation, left: &Value, right: &Value) -> Result<Value, Stop>
    ensures { Gives (related op left.now right.now) result }
{
    match op {
        Relation::Equal => Ok(Value::Bool(compare(Comparing::Eq, left, right))),
        Relation::NotEqual => Ok(Value::Bool(compare(Comparing::Ne, left, right))),
        Relation::Less => Ok(Value::Bool(compare(Comparing::Lt, left, right))),
        Relation::AtMost => Ok(Value::Bool(compare(Comparing::Le, left, right))),
        Relation::Greater => Ok(Value::Bool(compare(Comparing::Gt, left, right))),
        Relation::AtLeast => Ok(Value::Bool(compare(Comparing::Ge, left, right))),
        Relation::Member => member(left, right),
    }
}

/// `in`
fn member(left: &Value, right: &Value) -> Result<Value, Stop>
    ensures { Gives (related relation.Member left.now right.now) result }
{
    let n = ordinal_of(left)?;
    match right {
        Value::Set(members) => Ok(Value::Bool(contains(n, members))),
        _ => Err(Stop::Broken),
    }
}

/// Whether the ordinal is a member, which none outside `0..255` is.
fn contains(n: i64, members: &Members) -> bool
    ensures { result ≡ contains n members.now }
{
    if 0 <= n && n <= 255 {
        has(members, n.unsigned_abs() as u32)
    } else {
        false
    }
}
