//! The block of a session, its routes, its cuts, its work, and the block of an edit that was refused.
ghost use Rattle.std.specs.Prelude.{◌≡◌, ℕ, ◌≤◌, List};
ghost use Rattle.evac_law.specs.Building.{people as people_of};
ghost use Rattle.evac_law.specs.Certificates.{label_cut};
ghost use Rattle.evac_law.specs.declared.model.Model.{Model as ModelValue};
ghost use Rattle.line_io.specs.Writer.{Writes};
ghost use Rattle.certificate_text.specs.BlockText.{shortfall_text};
ghost use Rattle.certificate_text.specs.Short.{HasSameNames};
ghost use Rattle.plan_layout.specs.Layouts.{IsSameSite};
ghost use Rattle.session_text.specs.StateTexts.{SaysRoutesOf, block_text, cut_of, work_of};

use certificate_text::{put_answer, put_short};
use edit_session::Session;
use evac_law::Standing;
use line_io::{Sink, Writer};
use route_decompose::Routes;

/// Puts the answer block of a session. The index is 0 for the opening of a model and counts edits from there.
pub fn put_block<K: Sink>(writer: &mut Writer<'_, K>, session: &Session, index: u32)
    ensures { Writes K.Sink writer.old (block_text index session.now.state) writer.new }
{
    let model = session.model();
    put_answer(writer, model, index, session, session.labels());
}

/// Puts routes that make up the plan of a session. The index is that of its block.
pub fn put_routes<K: Sink>(
    writer: &mut Writer<'_, K>,
    session: &Session,
    index: u32,
    routes: &mut Routes,
)
    requires site { IsSameSite session.now.state.model routes.old.model }
    ensures text { (text : List ℕ) × SaysRoutesOf index session.now.state text × Writes K.Sink writer.old text writer.new }
    ensures model { routes.new.model ≡ session.now.state.model }
{
    let model = session.model();
    report_text::put_routes(writer, model, index, session, routes);
}

/// Puts the cut of a period.
pub fn put_cut<K: Sink>(writer: &mut Writer<'_, K>, session: &Session, k: u16)
    requires k_in { k ≤ session.now.state.model.horizon }
    ensures { Writes K.Sink writer.old (cut_of session.now.state k) writer.new }
{
    let model = session.model();
    let cleared = session.cleared();
    report_text::put_cut(writer, model, session.labels(), cleared, k);
}

/// Puts the work of the last accepted edit or undo, and before the first that of the beginning.
pub fn put_work<K: Sink>(writer: &mut Writer<'_, K>, session: &Session)
    ensures { Writes K.Sink writer.old (work_of session.now.state) writer.new }
{
    let work = session.work();
    report_text::put_work(writer, work.cancelled, work.pushes);
}

/// Puts the short block of an edit that was refused because not everybody could get out: the refusal at a line, the people of the
/// edited model, and the refused cut, with its value.
pub fn put_barred<K: Sink>(
    writer: &mut Writer<'_, K>,
    session: &Session,
    line: u32,
    people: u32,
    most: u32,
)
    ensures text { (edited : ModelValue) → HasSameNames session.now.state.model edited → people_of edited ≡ people
        → Writes K.Sink writer.old (shortfall_text line edited (label_cut edited session.now.refused edited.horizon) most) writer.new }
    ensures written { (text : List ℕ) × Writes K.Sink writer.old text writer.new }
{
    let model = session.model();
    put_short(writer, model, line, people, most, session.refused_cut());
}
