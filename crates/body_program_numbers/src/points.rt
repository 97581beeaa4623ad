//! Interaction points, with the numbers of their channels.

ghost use Rattle.std.specs.Prelude.{◌≡◌, ◌∷◌, [], ◌++◌, map, IfOk, OnOk};
ghost use Rattle.std.specs.List.{flat_map};
ghost use Rattle.estelle_model.specs.Definitions as definitions;
ghost use Rattle.meaning_table.specs.Known.{meanings_of};
ghost use Rattle.body_table.specs.Contributions.{ips_of};
ghost use Rattle.body_program_numbers.specs.Numbering as spec;

use crate::places::PlaceNumbers;
use body_numbers::IpNumbers;
use estelle_model::Meaning;
use estelle_tree::{Decl, Header, IpDecl, Items, Name, Sequence};
use meaning_table::Table;
use std::alloc::{AllocError, Global};

fn channel_at(meaning: &Meaning) -> u32
    ensures { result ≡ definitions.channel_at meaning.now }
{
    match meaning {
        Meaning::Channel(at) => *at,
        _ => 0,
    }
}

fn point_of(alloc: Global, channel: u32, name: &Name) -> Result<IpNumbers, AllocError>
    ensures { IfOk result (λ point. point ≡ record { word = name.now.word; channel = channel }) }
{
    Ok(IpNumbers {
        word: name.word.copy(alloc)?,
        channel,
    })
}

/// The points that are declared together.
fn push_points_of(
    table: &Table,
    channels: &PlaceNumbers,
    decl: &IpDecl,
    out: &mut Items<IpNumbers>,
) -> Result<(), AllocError>
    ensures { OnOk result (out.new ≡ out.old ++ spec.points_of (meanings_of table.now) channels.now decl.now) }
{
    let place = channel_at(table.meaning(&decl.channel));
    let channel = channels.number(place);
    let names = decl.names.names.items();
    for name in names {
        out.push(point_of(table.alloc, channel, name)?)?;
    }
    Ok(())
}

fn push_points(
    table: &Table,
    channels: &PlaceNumbers,
    decls: &[IpDecl],
    out: &mut Items<IpNumbers>,
) -> Result<(), AllocError>
    ensures { OnOk result (out.new ≡ out.old ++ flat_map (spec.points_of (meanings_of table.now) channels.now) decls.now) }
{
    for decl in decls {
        push_points_of(table, channels, decl, out)?;
    }
    Ok(())
}

fn push_points_in(
    table: &Table,
    channels: &PlaceNumbers,
    decl: &Decl,
    out: &mut Items<IpNumbers>,
) -> Result<(), AllocError>
    ensures { OnOk result (out.new ≡ out.old ++ flat_map (spec.points_of (meanings_of table.now) channels.now) (ips_of decl.now)) }
{
    match decl {
        Decl::Ip { ips, .. } => push_points(table, channels, ips.items(), out),
        _ => Ok(()),
    }
}

/// The points that a body itself declares.
pub fn push_own_points(
    table: &Table,
    channels: &PlaceNumbers,
    decls: &[Decl],
    out: &mut Items<IpNumbers>,
) -> Result<(), AllocError>
    ensures { OnOk result (out.new ≡ out.old ++ flat_map (λ d. flat_map (spec.points_of (meanings_of table.now) channels.now) (ips_of d)) decls.now) }
{
    for decl in decls {
        push_points_in(table, channels, decl, out)?;
    }
    Ok(())
}

fn header_points(
    table: &Table,
    channels: &PlaceNumbers,
    header: &Header,
) -> Result<Items<IpNumbers>, AllocError>
    ensures { IfOk result (λ points. points ≡ spec.header_points (meanings_of table.now) channels.now header.now) }
{
    let mut points = Items::new(table.alloc);
    push_points(table, channels, header.ips.items(), &mut points)?;
    Ok(points)
}

/// The points of each header.
pub fn all_header_points(
    table: &Table,
    channels: &PlaceNumbers,
    headers: &[&Header],
) -> Result<Items<Items<IpNumbers>>, AllocError>
    ensures { IfOk result (λ points. points ≡ map (spec.header_points (meanings_of table.now) channels.now) (map (λ h. h.now) headers.now)) }
{
    let mut points = Items::new(table.alloc);
    for header in headers {
        points.push(header_points(table, channels, header)?)?;
    }
    Ok(points)
}

/// Copies of points, behind others.
pub fn push_copies(
    alloc: Global,
    points: &[IpNumbers],
    out: &mut Items<IpNumbers>,
) -> Result<(), AllocError>
    ensures { OnOk result (out.new ≡ out.old ++ points.now) }
{
    for point in points {
        out.push(IpNumbers {
            word: point.word.copy(alloc)?,
            channel: point.channel,
        })?;
    }
    Ok(())
}
