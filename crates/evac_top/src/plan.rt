//! The block of a session with what is asked for after it.
ghost use Rattle.std.specs.Prelude.{ℕ, List, ◌++◌, IfSome, is_some};
ghost use Rattle.line_io.specs.Writer.{Writes};
ghost use Rattle.report_text.specs.ReportText.{SaysCards};
ghost use Rattle.plan_layout.specs.Layouts.{IsSameSite};
ghost use Rattle.session_text.specs.Spaces.{IsSpace};
ghost use Rattle.session_text.specs.StateTexts.{SaysReports, SaysRoutesOf};
ghost use Rattle.evac_top.specs.Solve.{SaysAsked, SaysPlan, Where};
ghost use Rattle.evac_top.specs.Tables.{HasTablesAsked};
ghost use Rattle.talk.specs.Held.{SendsTo};

use crate::query::Query;
use crate::report_tables::Tables;
use building_table::Names;
use cards::Cards;
use edit_session::Session;
use line_io::{Out, Sink, WriteFault, Writer};
use route_decompose::Routes;
use session_text::{ReportSpace, put_block};

// Puts the routes, where they are asked for.
fn put_routes<K: Sink>(writer: &mut Writer<'_, K>, session: &Session, routes: &mut Option<Routes>)
    requires { IfSome routes.old (λ r. IsSameSite session.now.state.model r.model) }
    ensures { (text : List ℕ) × Where (is_some routes.old) (SaysRoutesOf 0 session.now.state) text
        × Writes K.Sink writer.old text writer.new }
{
    match routes {
        Some(routes) => session_text::put_routes(writer, session, 0, routes),
        None => {}
    }
}

// Puts the cards, where they are asked for.
fn put_cards<K: Sink>(writer: &mut Writer<'_, K>, session: &Session, cards: &mut Option<Cards>)
    requires { IfSome cards.old (λ c. IsSameSite session.now.state.model c.model) }
    ensures { let s = session.now.state in (text : List ℕ) × Where (is_some cards.old) (SaysCards 0 s.model s.plan) text
        × Writes K.Sink writer.old text writer.new }
{
    match cards {
        Some(cards) => report_text::put_cards(writer, session.model(), 0, session, cards),
        None => {}
    }
}

// Puts the reports, where they are asked for.
fn put_reports<K: Sink>(
    writer: &mut Writer<'_, K>,
    session: &Session,
    names: &Names,
    reports: &mut Option<ReportSpace>,
)
    requires { IfSome reports.old (IsSpace session.now.state.model names.now) }
    ensures { (text : List ℕ) × Where (is_some reports.old) (SaysReports names.now 0 session.now.state) text
        × Writes K.Sink writer.old text writer.new }
{
    match reports {
        Some(space) => session_text::put_reports(writer, session, 0, names, space),
        None => {}
    }
}

// Puts what is asked for after the block.
fn put_asked<K: Sink>(
    writer: &mut Writer<'_, K>,
    query: &Query,
    session: &Session,
    tables: &mut Tables,
)
    requires { HasTablesAsked query.now.flags query.now.names session.now.state tables.old }
    ensures { let s = session.now.state in
        (asked : List ℕ) × (reports : List ℕ) × SaysAsked query.now.flags s asked × Where query.now.flags.reports (SaysReports query.now.names 0 s) reports
        × Writes K.Sink writer.old (asked ++ reports) writer.new }
{
    put_routes(writer, session, &mut tables.routes);
    put_cards(writer, session, &mut tables.cards);
    put_reports(writer, session, &query.names, &mut tables.reports);
}

/// Sends the block of a session with what is asked for after it.
pub(crate) fn send_plan<K: Sink>(
    out: &mut Out,
    sink: &mut K,
    query: &Query,
    session: &Session,
    tables: &mut Tables,
) -> Result<(), WriteFault>
    requires { HasTablesAsked query.now.flags query.now.names session.now.state tables.old }
    ensures { (text : List ℕ) × SaysPlan query.now.flags query.now.names session.now.state text
        × SendsTo K.Sink result text sink.old out.old sink.new out.new }
{
    let mut writer = Writer::new(out, sink);
    put_block(&mut writer, session, 0);
    put_asked(&mut writer, query, session, tables);
    writer.flush()
}
