//! The calls. `depth` is the nesting in which the piece stands: 200 levels of nesting may open in one
//! another.

ghost use Rattle.std.specs.Prelude.{◌≡◌, ◌≤◌, ◌<◌, ◌^◌, ℕ, length, IfOk, IfErr};
ghost use Rattle.estelle_tree.specs.declared.tree.expression.Expr.{Expr};
ghost use Rattle.estelle_tree.specs.declared.tree.type_expr.TypeExpr.{TypeExpr};
ghost use Rattle.estelle_tree.specs.declared.tree.statement.Stmts.{Stmts};
ghost use Rattle.estelle_tree.specs.declared.tree.declaration.Routine.{Routine};
ghost use Rattle.estelle_tree.specs.Types.{IsType};
ghost use Rattle.estelle_tree.specs.Expressions.{IsExpr};
ghost use Rattle.estelle_tree.specs.Statements.{IsStmts};
ghost use Rattle.estelle_tree.specs.Declarations.{IsRoutine};
ghost use Rattle.estelle_tree.specs.Spells.{room_at, max_nesting};
ghost use Rattle.estelle_tree.specs.BeginsTypes.{BeginsType};
ghost use Rattle.estelle_tree.specs.BeginsExpressions.{BeginsExpr};
ghost use Rattle.estelle_tree.specs.BeginsStatements.{BeginsStmts};
ghost use Rattle.estelle_tree.specs.BeginsDeclarations.{BeginsRoutine};
ghost use Rattle.type_parser.specs.Types.{EndsOrdinal};
ghost use Rattle.expression_parser.specs.Expression.{EndsExpr};
ghost use Rattle.statement_parser.specs.Statement.{EndsStmts};
ghost use Rattle.pascal_parser.specs.Places.{place};
ghost use Rattle.pascal_parser.specs.Longest.{IsExact, IsRefused};
ghost use Rattle.pascal_parser.specs.Answers.{IsSpelled, IsAnswered};

use crate::error::SyntaxError;
use crate::reading::read_at;
use estelle_tree::{Expr, Placed, Routine, Stmts, TypeExpr};
use expression_parser::ExprAt;
use statement_parser::{RoutineAt, StmtsAt};
use std::alloc::Global;
use type_parser::TypeForm;

/// So many levels of nesting may stand in one another.
const MAX_NESTING: u32 = 200;

/// Reads an expression (ISO 7185, 6.7.1) that stands at this nesting, from a place in the list, and tells the place
/// after it.
#[tactic(auto, unfolding(estelle_tree::specs::Spells::max_nesting))]
pub fn expression(
    alloc: Global,
    tokens: &[Placed],
    at: u32,
    depth: u32,
) -> Result<(Expr, u32), SyntaxError>
    requires fits { length tokens.now < 2 ^ 32 }
    requires inside { at ≤ length tokens.now }
    requires nesting { depth ≤ max_nesting }
    ensures spelled { IfOk result (IsSpelled (IsExpr (room_at depth)) tokens.now at) }
    ensures behind { IfOk result (λ found. (at ≤ found.1) × (found.1 ≤ length tokens.now)) }
    // Of the pieces from there on that begin an expression, the longest spells this one and no other.
    ensures exact { IfOk result (IsExact (BeginsExpr (room_at depth)) (IsExpr (room_at depth)) tokens.now at) }
    // Where that piece spells none, the call refuses behind it.
    ensures refused { IfErr result (IsRefused (BeginsExpr (room_at depth)) (IsExpr (room_at depth)) tokens.now at) }
    // A node that a piece spells is the answer where nothing goes on with it behind the piece.
    ensures ended { (x : Expr) (to : ℕ) → to ≤ length tokens.now → IsSpelled (IsExpr (room_at depth)) tokens.now at (x, to) → EndsExpr (place tokens.now to) → IsAnswered x to result }
{
    let room = MAX_NESTING - depth;
    read_at(alloc, tokens, at, &ExprAt { room })
}

/// Reads a type (ISO 7185, 6.4.1), as `expression` an expression.
#[tactic(auto, unfolding(estelle_tree::specs::Spells::max_nesting))]
pub fn type_expr(
    alloc: Global,
    tokens: &[Placed],
    at: u32,
    depth: u32,
) -> Result<(TypeExpr, u32), SyntaxError>
    requires fits { length tokens.now < 2 ^ 32 }
    requires inside { at ≤ length tokens.now }
    requires nesting { depth ≤ max_nesting }
    ensures spelled { IfOk result (IsSpelled (IsType (room_at depth)) tokens.now at) }
    ensures behind { IfOk result (λ found. (at ≤ found.1) × (found.1 ≤ length tokens.now)) }
    // Of the pieces from there on that begin a type, the longest spells this one and no other.
    ensures exact { IfOk result (IsExact (BeginsType (room_at depth)) (IsType (room_at depth)) tokens.now at) }
    // Where that piece spells none, the call refuses behind it.
    ensures refused { IfErr result (IsRefused (BeginsType (room_at depth)) (IsType (room_at depth)) tokens.now at) }
    // A node that a piece spells is the answer where nothing goes on with it behind the piece.
    ensures ended { (x : TypeExpr) (to : ℕ) → to ≤ length tokens.now → IsSpelled (IsType (room_at depth)) tokens.now at (x, to) → EndsOrdinal (place tokens.now to) → IsAnswered x to result }
{
    let room = (MAX_NESTING - depth) as u8;
    read_at(alloc, tokens, at, &TypeForm { room })
}

/// Reads a statement sequence (ISO 7185, 6.8.3.1), as `expression` an expression.
#[tactic(auto, unfolding(estelle_tree::specs::Spells::max_nesting))]
pub fn statements(
    alloc: Global,
    tokens: &[Placed],
    at: u32,
    depth: u32,
) -> Result<(Stmts, u32), SyntaxError>
    requires fits { length tokens.now < 2 ^ 32 }
    requires inside { at ≤ length tokens.now }
    requires nesting { depth ≤ max_nesting }
    ensures spelled { IfOk result (IsSpelled (IsStmts (room_at depth)) tokens.now at) }
    ensures behind { IfOk result (λ found. (at ≤ found.1) × (found.1 ≤ length tokens.now)) }
    // Of the pieces from there on that begin a statement sequence, the longest spells this one and no other.
    ensures exact { IfOk result (IsExact (BeginsStmts (room_at depth)) (IsStmts (room_at depth)) tokens.now at) }
    // Where that piece spells none, the call refuses behind it.
    ensures refused { IfErr result (IsRefused (BeginsStmts (room_at depth)) (IsStmts (room_at depth)) tokens.now at) }
    // A node that a piece spells is the answer where nothing goes on with it behind the piece.
    ensures ended { (x : Stmts) (to : ℕ) → to ≤ length tokens.now → IsSpelled (IsStmts (room_at depth)) tokens.now at (x, to) → EndsStmts (place tokens.now to) → IsAnswered x to result }
{
    let room = (MAX_NESTING - depth) as u8;
    read_at(alloc, tokens, at, &StmtsAt { room })
}

/// Reads a procedure or function (ISO 7185, 6.6.1 and 6.6.2), as `expression` an expression.
#[tactic(auto, unfolding(estelle_tree::specs::Spells::max_nesting))]
pub fn routine(
    alloc: Global,
    tokens: &[Placed],
    at: u32,
    depth: u32,
) -> Result<(Routine, u32), SyntaxError>
    requires fits { length tokens.now < 2 ^ 32 }
    requires inside { at ≤ length tokens.now }
    requires nesting { depth ≤ max_nesting }
    ensures spelled { IfOk result (IsSpelled (IsRoutine (room_at depth)) tokens.now at) }
    ensures behind { IfOk result (λ found. (at ≤ found.1) × (found.1 ≤ length tokens.now)) }
    // Of the pieces from there on that begin a routine, the longest spells this one and no other.
    ensures exact { IfOk result (IsExact (BeginsRoutine (room_at depth)) (IsRoutine (room_at depth)) tokens.now at) }
    // Where that piece spells none, the call refuses behind it.
    ensures refused { IfErr result (IsRefused (BeginsRoutine (room_at depth)) (IsRoutine (room_at depth)) tokens.now at) }
    // Whatever routine a piece from there on spells is the answer.
    ensures answered { (x : Routine) (to : ℕ) → to ≤ length tokens.now → IsSpelled (IsRoutine (room_at depth)) tokens.now at (x, to) → IsAnswered x to result }
{
    let room = (MAX_NESTING - depth) as u8;
    read_at(alloc, tokens, at, &RoutineAt { room })
}
