//! The places and the edits that commands name.
ghost use Rattle.std.specs.Prelude.{◌≡◌, ◌<◌, IfOk, length};
ghost use Rattle.evac_law.specs.Edits.{IsEditOf};
ghost use Rattle.evac_law.specs.declared.model.Model.{Model};
ghost use Rattle.building_table.specs.EditNames.{edit_named, named_arc, named_node, named_nodes};
ghost use Rattle.building_table.specs.Names.{NamesFit};

use crate::faults::NameFault;
use crate::names::Names;
use evac_law::{Edit, NodeName};
use model_text::NamedEdit;

fn node_of(names: &Names, name: NodeName) -> Result<u32, NameFault>
    ensures node { result ≡ named_node names.now name }
    ensures within { IfOk result (λ node. (m : Model) → NamesFit names.now m → node < length m.nodes) }
{
    match names.find_node(name) {
        Some(place) => Ok(place),
        None => Err(NameFault::UnknownNode),
    }
}

fn nodes_of(names: &Names, from: NodeName, to: NodeName) -> Result<(u32, u32), NameFault>
    ensures nodes { result ≡ named_nodes names.now from to }
    ensures within { IfOk result (λ nodes. (m : Model) → NamesFit names.now m → (nodes.0 < length m.nodes) × (nodes.1 < length m.nodes)) }
{
    let from = node_of(names, from)?;
    let to = node_of(names, to)?;
    Ok((from, to))
}

/// The place of the arc between two nodes, or the first name that has no place.
pub fn arc_of(names: &Names, from: NodeName, to: NodeName) -> Result<u32, NameFault>
    ensures arc { result ≡ named_arc names.now from to }
    ensures within { IfOk result (λ arc. (m : Model) → NamesFit names.now m → arc < length m.arcs) }
{
    let (from, to) = nodes_of(names, from, to)?;
    match names.find_arc(from, to) {
        Some(place) => Ok(place),
        None => Err(NameFault::NoArc),
    }
}

/// The edit at the places of its names, or the first name that has no place.
#[tactic(auto, unfolding(crate::specs::EditNames::edit_named))]
pub fn edit_of(names: &Names, named: NamedEdit) -> Result<Edit, NameFault>
    ensures edit { result ≡ edit_named names.now named }
    ensures within { IfOk result (λ edit. (m : Model) → NamesFit names.now m → IsEditOf m edit) }
{
    let edit = match named {
        NamedEdit::Shut { from, to } => Edit::Shut {
            arc: arc_of(names, from, to)?,
        },
        NamedEdit::Reopen { from, to } => Edit::Reopen {
            arc: arc_of(names, from, to)?,
        },
        NamedEdit::ShutExit { node } => Edit::ShutExit {
            node: node_of(names, node)?,
        },
        NamedEdit::ReopenExit { node } => Edit::ReopenExit {
            node: node_of(names, node)?,
        },
        NamedEdit::Rate { from, to, rate } => Edit::Rate {
            arc: arc_of(names, from, to)?,
            rate,
        },
        NamedEdit::Room { node, capacity } => Edit::Room {
            node: node_of(names, node)?,
            capacity,
        },
        NamedEdit::Shift { from, to, people } => {
            let (from, to) = nodes_of(names, from, to)?;
            Edit::Shift { from, to, people }
        }
        NamedEdit::Enter { node, people } => Edit::Enter {
            node: node_of(names, node)?,
            people,
        },
        NamedEdit::Leave { node, people } => Edit::Leave {
            node: node_of(names, node)?,
            people,
        },
        NamedEdit::Window {
            from,
            to,
            first,
            until,
        } => Edit::Window {
            arc: arc_of(names, from, to)?,
            from: first,
            until,
        },
        NamedEdit::Unwindow {
            from,
            to,
            first,
            until,
        } => Edit::Unwindow {
            arc: arc_of(names, from, to)?,
            from: first,
            until,
        },
    };
    Ok(edit)
}
