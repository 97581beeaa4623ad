//! The canonical text of a specification.

ghost use Rattle.std.specs.Prelude.{◌≡◌, OnOk, IfOk};
ghost use Rattle.estelle_printer.specs.Canonical.{IsCanonicalText, canonical};
ghost use Rattle.estelle_printer.specs.SpecificationTokens as tokens;
ghost use Rattle.estelle_printer.specs.Writing.{write};

use crate::node::{Node, chain, optional};
use crate::writer::Writer;
use estelle_tree::{Kind, Sequence, Spec, Text};
use std::alloc::{AllocError, Global};

/// All tokens but the last.
fn write_before_dot(spec: &Spec, out: &mut Writer) -> Result<(), AllocError>
    ensures { OnOk result (out.new ≡ write out.old (tokens.before_dot spec.now)) }
{
    out.mark(Kind::Specification)?;
    spec.name.write(out)?;
    optional(&spec.attr, out)?;
    out.mark(Kind::Semicolon)?;
    chain(spec.heads.items(), out)?;
    spec.parts.write(out)?;
    out.mark(Kind::End)
}

fn written(alloc: Global, spec: &Spec) -> Result<Text, AllocError>
    ensures { IfOk result (λ text. text ≡ canonical (tokens.specification spec.now)) }
{
    let mut out = Writer::new(alloc);
    write_before_dot(spec, &mut out)?;
    out.end(Kind::Dot)
}

/// The canonical text: the tokens that the tree spells, joined by one space, with a line feed in place
/// of the space after each symbol `;`, and a line feed after the last token. The symbols `[` and `]`
/// are written so, letters are small, and numbers have no leading zeros.
pub fn spell(alloc: Global, spec: &Spec) -> Result<Text, AllocError>
    ensures { IfOk result (IsCanonicalText spec.now) }
{
    written(alloc, spec)
}
