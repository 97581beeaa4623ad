//! Interaction points in statements, and what they send.

ghost use Rattle.std.specs.Prelude.{◌≡◌};
ghost use Rattle.std.specs.Str.{bytes_eq};
ghost use Rattle.channel_roles.specs.ChannelRules as spec;
ghost use Rattle.module_table.specs.Known.{ip_of, interaction_of};

use estelle_tree::{Ip, Name, NameList, Sequence, Word};
use module_table::{Interaction, InteractionPoint, ModuleTable, may_receive, may_send};

pub fn point(table: &ModuleTable, ip: &Ip) -> Option<InteractionPoint>
    ensures { result ≡ spec.point table.now ip.now }
{
    match &ip.part {
        None => table.ip_of(&ip.name),
        Some(part) => table.ip_of(part),
    }
}

pub fn is_external(point: Option<InteractionPoint>) -> bool
    ensures { result ≡ spec.holds spec.is_external point }
{
    match point {
        None => false,
        Some(point) => point.external,
    }
}

pub fn is_internal(point: Option<InteractionPoint>) -> bool
    ensures { result ≡ spec.holds spec.is_internal point }
{
    match point {
        None => false,
        Some(point) => !point.external,
    }
}

pub fn is_own_external(table: &ModuleTable, ip: &Ip) -> bool
    ensures { result ≡ spec.is_own_external table.now ip.now }
{
    ip.part.is_none() && is_external(point(table, ip))
}

pub fn is_own_internal(table: &ModuleTable, ip: &Ip) -> bool
    ensures { result ≡ spec.is_own_internal table.now ip.now }
{
    ip.part.is_none() && is_internal(point(table, ip))
}

/// Whether two points have different channels or the same role.
pub fn join_not(p: Option<InteractionPoint>, q: Option<InteractionPoint>) -> bool
    ensures { result ≡ spec.both spec.joins_not p q }
{
    match (p, q) {
        (Some(p), Some(q)) => p.channel != q.channel || p.role == q.role,
        _ => false,
    }
}

/// Whether two points have different channels or different roles.
pub fn attach_not(p: Option<InteractionPoint>, q: Option<InteractionPoint>) -> bool
    ensures { result ≡ spec.both spec.attaches_not p q }
{
    match (p, q) {
        (Some(p), Some(q)) => p.channel != q.channel || p.role != q.role,
        _ => false,
    }
}

/// Whether an interaction point may not send an interaction.
pub fn sends_not(table: &ModuleTable, ip: &Name, interaction: &Name) -> bool
    ensures { result ≡ spec.both spec.sends_not (ip_of table.now ip.now) (interaction_of table.now interaction.now) }
{
    let point = table.ip_of(ip);
    match (point, table.interaction_of(interaction)) {
        (Some(point), Some(interaction)) => !may_send(point.role, interaction),
        _ => false,
    }
}

fn is_word(name: &Name, word: &Word) -> bool
    ensures { result ≡ bytes_eq name.now.word word.now }
{
    name.word.items() == word.items()
}

/// Whether names are these words, in order.
fn are_words(names: &[Name], words: &[Word]) -> bool
    ensures { result ≡ spec.are_words names.now words.now }
{
    let mut words = words;
    for name in names {
        match words {
            [] => return false,
            [word, rest @ ..] => {
                if !is_word(name, word) {
                    return false;
                }
                words = rest;
            }
        }
    }
    words.is_empty()
}

fn are_listed(listed: &Option<NameList>, words: &[Word]) -> bool
    ensures { result ≡ spec.are_listed listed.now words.now }
{
    match listed {
        None => true,
        Some(names) => are_words(names.names.items(), words),
    }
}

fn receives_not(
    listed: &Option<NameList>,
    point: InteractionPoint,
    interaction: &Interaction,
) -> bool
    ensures { result ≡ spec.receives_not listed.now point interaction.now }
{
    !may_receive(point.role, interaction) || !are_listed(listed, interaction.parameters.items())
}

/// Whether an interaction point may not receive an interaction, or other names are listed than its parameters.
pub fn receive_not(
    table: &ModuleTable,
    ip: &Name,
    interaction: &Name,
    listed: &Option<NameList>,
) -> bool
    ensures { result ≡ spec.both (spec.receives_not listed.now) (ip_of table.now ip.now) (interaction_of table.now interaction.now) }
{
    let point = table.ip_of(ip);
    match (point, table.interaction_of(interaction)) {
        (Some(point), Some(interaction)) => receives_not(listed, point, interaction),
        _ => false,
    }
}
