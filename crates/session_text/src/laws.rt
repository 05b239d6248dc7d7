//! The laws, each the contract of a function with nothing to do.
ghost use Rattle.session_text.specs.Laws.{BeginsOfBuilding, EditKeepsBuilding, EditServes, ShapeServes, UndoKeepsBuilding};

/// What serves a model serves another of the same shape.
pub fn shape_serves()
    ensures { ShapeServes }
{}

/// What serves a model serves the edited one.
pub fn edit_serves()
    ensures { EditServes }
{}

/// A session begins with one model, and none before it.
pub fn begins_of_building()
    ensures { BeginsOfBuilding }
{}

/// An edit keeps the shape of all models of a session.
pub fn edit_keeps_building()
    ensures { EditKeepsBuilding }
{}

/// So does an undo.
pub fn undo_keeps_building()
    ensures { UndoKeepsBuilding }
{}
