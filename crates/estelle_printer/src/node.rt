//! Nodes of a tree, and lists of them.

ghost use Rattle.std.specs.Prelude.{◌≡◌, OnOk};
ghost use Rattle.std.specs.List.{flat_map};
ghost use Rattle.estelle_printer.specs.Forms.{optional, separated, lines, may_be_lines};
ghost use Rattle.estelle_printer.specs.Writing.{write};

use crate::writer::Writer;
use estelle_tree::Kind;
use std::alloc::AllocError;

/// What has tokens.
pub trait Node {
    ghost use Rattle.estelle_printer.specs.Forms.{Tokens};

    ghost tokens: { Self → Tokens };

    /// Adds its tokens.
    fn write(&self, out: &mut Writer) -> Result<(), AllocError>
        ensures { OnOk result (out.new ≡ write out.old (tokens self.now)) };
}

/// `[x]`
pub fn optional<N: Node>(node: &Option<N>, out: &mut Writer) -> Result<(), AllocError>
    ensures { OnOk result (out.new ≡ write out.old (optional N.tokens node.now)) }
{
    match node {
        Some(node) => node.write(out),
        None => Ok(()),
    }
}

/// `{x}`
pub fn chain<N: Node>(nodes: &[N], out: &mut Writer) -> Result<(), AllocError>
    ensures { OnOk result (out.new ≡ write out.old (flat_map N.tokens nodes.now)) }
{
    for node in nodes {
        node.write(out)?;
    }
    Ok(())
}

/// `x {k x}`
pub fn separated<N: Node>(kind: Kind, nodes: &[N], out: &mut Writer) -> Result<(), AllocError>
    ensures { OnOk result (out.new ≡ write out.old (separated kind N.tokens nodes.now)) }
{
    for (place, node) in nodes.iter().enumerate() {
        out.flag(kind, place != 0)?;
        node.write(out)?;
    }
    Ok(())
}

/// `{x ";"}`
pub fn lines<N: Node>(nodes: &[N], out: &mut Writer) -> Result<(), AllocError>
    ensures { OnOk result (out.new ≡ write out.old (lines N.tokens nodes.now)) }
{
    for node in nodes {
        node.write(out)?;
        out.mark(Kind::Semicolon)?;
    }
    Ok(())
}

/// `[k {x ";"}+]`: nothing where there is no node.
pub fn may_be_lines<N: Node>(kind: Kind, nodes: &[N], out: &mut Writer) -> Result<(), AllocError>
    ensures { OnOk result (out.new ≡ write out.old (may_be_lines kind N.tokens nodes.now)) }
{
    if nodes.is_empty() {
        return Ok(());
    }
    out.mark(kind)?;
    lines(nodes, out)
}
