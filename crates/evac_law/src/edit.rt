//! Edits of a model.
ghost use Rattle.std.specs.Prelude.{◌≡◌, ◌<◌, length, IfOk, IfErr, OnErr, OnOk};
ghost use Rattle.evac_law.specs.Building.{IsValid};
ghost use Rattle.evac_law.specs.Edits.{Applies, IsEditOf, applied, fault_code};
ghost use Rattle.evac_law.specs.Shapes.{HasSameShape};

use crate::code::Code;
use crate::limits::{CAPACITY_LIMIT, HORIZON_LIMIT, PEOPLE_LIMIT, RATE_LIMIT};
use crate::model::Model;
use crate::window::{Window, place_of};
use thiserror::Error;

/// A change of a model.
#[derive(Clone, Copy, PartialEq, Eq)]
pub enum Edit {
    Shut { arc: u32 },
    Reopen { arc: u32 },
    ShutExit { node: u32 },
    ReopenExit { node: u32 },
    Rate { arc: u32, rate: u32 },
    Room { node: u32, capacity: u32 },
    Shift { from: u32, to: u32, people: u32 },
    Enter { node: u32, people: u32 },
    Leave { node: u32, people: u32 },
    Window { arc: u32, from: u32, until: u32 },
    Unwindow { arc: u32, from: u32, until: u32 },
}

/// Why an edit is refused.
#[derive(Clone, Copy, PartialEq, Eq, Debug, Error)]
pub enum EditFault {
    #[error("a number is out of range")]
    OutOfRange,
    #[error("more people would start in the node than it has room for")]
    OverFull,
    #[error("both nodes are the same")]
    SameNode,
    #[error("the building would have too many people")]
    TooMany,
    #[error("it is shut already")]
    AlreadyShut,
    #[error("it is open already")]
    AlreadyOpen,
    #[error("the node is not an exit")]
    NotExit,
    #[error("the node is an exit")]
    ExitNamed,
    #[error("fewer people start in the node")]
    TooFew,
    #[error("the window doesn't begin before it ends")]
    BadWindow,
    #[error("the arc has a window at one of these moments")]
    WindowOverlap,
    #[error("the arc has as many windows as it may have")]
    TooManyWindows,
    #[error("the arc has no such window")]
    NoWindow,
}

impl EditFault {
    /// The code by which a refusal names the fault.
    pub fn code(self) -> Code
        ensures { result ≡ fault_code self }
    {
        match self {
            EditFault::OutOfRange => Code::OutOfRange,
            EditFault::OverFull => Code::OverFull,
            EditFault::SameNode => Code::SameNode,
            EditFault::TooMany => Code::TooMany,
            EditFault::AlreadyShut => Code::AlreadyShut,
            EditFault::AlreadyOpen => Code::AlreadyOpen,
            EditFault::NotExit => Code::NotExit,
            EditFault::ExitNamed => Code::ExitNamed,
            EditFault::TooFew => Code::TooFew,
            EditFault::BadWindow => Code::BadWindow,
            EditFault::WindowOverlap => Code::WindowOverlap,
            EditFault::TooManyWindows => Code::TooManyWindows,
            EditFault::NoWindow => Code::NoWindow,
        }
    }
}

fn shut(model: &mut Model, arc: u32) -> Result<Edit, EditFault>
    requires valid { IsValid model.old }
    requires in_range { arc < length model.old.arcs }
    ensures answer { Applies model.old (Edit.Shut arc) result model.new }
{
    if model.arc(arc).shut {
        return Err(EditFault::AlreadyShut);
    }
    model.set_arc_shut(arc, true);
    Ok(Edit::Reopen { arc })
}

fn reopen(model: &mut Model, arc: u32) -> Result<Edit, EditFault>
    requires valid { IsValid model.old }
    requires in_range { arc < length model.old.arcs }
    ensures answer { Applies model.old (Edit.Reopen arc) result model.new }
{
    if !model.arc(arc).shut {
        return Err(EditFault::AlreadyOpen);
    }
    model.set_arc_shut(arc, false);
    Ok(Edit::Shut { arc })
}

fn shut_exit(model: &mut Model, node: u32) -> Result<Edit, EditFault>
    requires valid { IsValid model.old }
    requires in_range { node < length model.old.nodes }
    ensures answer { Applies model.old (Edit.ShutExit node) result model.new }
{
    let row = model.node(node);
    if !row.name.kind.is_exit() {
        return Err(EditFault::NotExit);
    }
    if row.shut {
        return Err(EditFault::AlreadyShut);
    }
    model.set_exit_shut(node, true);
    Ok(Edit::ReopenExit { node })
}

fn reopen_exit(model: &mut Model, node: u32) -> Result<Edit, EditFault>
    requires valid { IsValid model.old }
    requires in_range { node < length model.old.nodes }
    ensures answer { Applies model.old (Edit.ReopenExit node) result model.new }
{
    let row = model.node(node);
    if !row.name.kind.is_exit() {
        return Err(EditFault::NotExit);
    }
    if !row.shut {
        return Err(EditFault::AlreadyOpen);
    }
    model.set_exit_shut(node, false);
    Ok(Edit::ShutExit { node })
}

#[tactic(auto, unfolding(crate::specs::Limits::rate_limit))]
fn set_rate(model: &mut Model, arc: u32, rate: u32) -> Result<Edit, EditFault>
    requires valid { IsValid model.old }
    requires in_range { arc < length model.old.arcs }
    ensures answer { Applies model.old (Edit.Rate arc rate) result model.new }
{
    if rate > RATE_LIMIT {
        return Err(EditFault::OutOfRange);
    }
    let old = model.arc(arc).rate;
    model.set_arc_rate(arc, rate);
    Ok(Edit::Rate { arc, rate: old })
}

#[tactic(auto, unfolding(crate::specs::Limits::capacity_limit))]
fn set_room(model: &mut Model, node: u32, capacity: u32) -> Result<Edit, EditFault>
    requires valid { IsValid model.old }
    requires in_range { node < length model.old.nodes }
    ensures answer { Applies model.old (Edit.Room node capacity) result model.new }
{
    let row = model.node(node);
    if row.name.kind.is_exit() {
        return Err(EditFault::ExitNamed);
    }
    if capacity > CAPACITY_LIMIT {
        return Err(EditFault::OutOfRange);
    }
    if capacity < row.start {
        return Err(EditFault::OverFull);
    }
    model.set_capacity(node, capacity);
    Ok(Edit::Room {
        node,
        capacity: row.capacity,
    })
}

#[tactic(auto, unfolding(crate::specs::Limits::capacity_limit))]
fn shift(model: &mut Model, from: u32, to: u32, people: u32) -> Result<Edit, EditFault>
    requires valid { IsValid model.old }
    requires in_range { (from < length model.old.nodes) × (to < length model.old.nodes) }
    ensures answer { Applies model.old (Edit.Shift from to people) result model.new }
{
    if from == to {
        return Err(EditFault::SameNode);
    }
    let left = model.node(from);
    let entered = model.node(to);
    if left.name.kind.is_exit() || entered.name.kind.is_exit() {
        return Err(EditFault::ExitNamed);
    }
    if people == 0 || people > CAPACITY_LIMIT {
        return Err(EditFault::OutOfRange);
    }
    if left.start < people {
        return Err(EditFault::TooFew);
    }
    if entered.capacity - entered.start < people {
        return Err(EditFault::OverFull);
    }
    model.set_start(from, left.start - people);
    model.set_start(to, entered.start + people);
    Ok(Edit::Shift {
        from: to,
        to: from,
        people,
    })
}

#[tactic(auto, unfolding(crate::specs::Limits::capacity_limit, crate::specs::Limits::people_limit))]
fn enter(model: &mut Model, node: u32, people: u32) -> Result<Edit, EditFault>
    requires valid { IsValid model.old }
    requires in_range { node < length model.old.nodes }
    ensures answer { Applies model.old (Edit.Enter node people) result model.new }
{
    let row = model.node(node);
    if row.name.kind.is_exit() {
        return Err(EditFault::ExitNamed);
    }
    if people == 0 || people > CAPACITY_LIMIT {
        return Err(EditFault::OutOfRange);
    }
    if model.people() + people > PEOPLE_LIMIT {
        return Err(EditFault::TooMany);
    }
    if row.capacity - row.start < people {
        return Err(EditFault::OverFull);
    }
    model.set_start(node, row.start + people);
    Ok(Edit::Leave { node, people })
}

#[tactic(auto, unfolding(crate::specs::Limits::capacity_limit))]
fn leave(model: &mut Model, node: u32, people: u32) -> Result<Edit, EditFault>
    requires valid { IsValid model.old }
    requires in_range { node < length model.old.nodes }
    ensures answer { Applies model.old (Edit.Leave node people) result model.new }
{
    let row = model.node(node);
    if row.name.kind.is_exit() {
        return Err(EditFault::ExitNamed);
    }
    if people == 0 || people > CAPACITY_LIMIT {
        return Err(EditFault::OutOfRange);
    }
    if row.start < people {
        return Err(EditFault::TooFew);
    }
    model.set_start(node, row.start - people);
    Ok(Edit::Enter { node, people })
}

#[tactic(auto, unfolding(crate::specs::Limits::horizon_limit, crate::specs::Limits::window_limit))]
fn add_window(model: &mut Model, arc: u32, from: u32, until: u32) -> Result<Edit, EditFault>
    requires valid { IsValid model.old }
    requires in_range { arc < length model.old.arcs }
    ensures answer { Applies model.old (Edit.Window arc from until) result model.new }
{
    let last = u32::from(HORIZON_LIMIT);
    if from > last || until == 0 || until > last + 1 {
        return Err(EditFault::OutOfRange);
    }
    if from >= until {
        return Err(EditFault::BadWindow);
    }
    let window = Window {
        from: from as u16,
        until: until as u16,
    };
    let row = model.arc(arc);
    if row.overlaps(window) {
        return Err(EditFault::WindowOverlap);
    }
    if row.windows.is_full() {
        return Err(EditFault::TooManyWindows);
    }
    model.add_window(arc, window);
    Ok(Edit::Unwindow { arc, from, until })
}

fn remove_window(model: &mut Model, arc: u32, from: u32, until: u32) -> Result<Edit, EditFault>
    requires valid { IsValid model.old }
    requires in_range { arc < length model.old.arcs }
    ensures answer { Applies model.old (Edit.Unwindow arc from until) result model.new }
{
    match place_of(model.arc(arc).windows.as_slice(), from, until) {
        None => Err(EditFault::NoWindow),
        Some(place) => {
            model.remove_window(arc, place);
            Ok(Edit::Window { arc, from, until })
        }
    }
}

fn dispatch(model: &mut Model, edit: Edit) -> Result<Edit, EditFault>
    requires valid { IsValid model.old }
    requires in_range { IsEditOf model.old edit }
    ensures answer { Applies model.old edit result model.new }
{
    match edit {
        Edit::Shut { arc } => shut(model, arc),
        Edit::Reopen { arc } => reopen(model, arc),
        Edit::ShutExit { node } => shut_exit(model, node),
        Edit::ReopenExit { node } => reopen_exit(model, node),
        Edit::Rate { arc, rate } => set_rate(model, arc, rate),
        Edit::Room { node, capacity } => set_room(model, node, capacity),
        Edit::Shift { from, to, people } => shift(model, from, to, people),
        Edit::Enter { node, people } => enter(model, node, people),
        Edit::Leave { node, people } => leave(model, node, people),
        Edit::Window { arc, from, until } => add_window(model, arc, from, until),
        Edit::Unwindow { arc, from, until } => remove_window(model, arc, from, until),
    }
}

/// Makes an edit, and answers the edit that undoes it.
pub fn apply(model: &mut Model, edit: Edit) -> Result<Edit, EditFault>
    requires valid { IsValid model.old }
    requires in_range { IsEditOf model.old edit }
    ensures ok { IfOk result (λ inverse. applied model.old edit ≡ Ok (model.new, inverse)) }
    ensures fault { IfErr result (λ fault. applied model.old edit ≡ Err fault) }
    ensures unchanged { OnErr result (model.new ≡ model.old) }
    ensures valid { OnOk result (IsValid model.new) }
    ensures shape { OnOk result (HasSameShape model.old model.new) }
    ensures undoes { IfOk result (λ inverse. IsEditOf model.new inverse × (applied model.new inverse ≡ Ok (model.old, edit))) }
{
    dispatch(model, edit)
}
