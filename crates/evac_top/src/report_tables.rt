//! The tables of what is asked for after a block.
ghost use Rattle.std.specs.Prelude.{◌≡◌, IfOk, IfSome, is_some};
ghost use Rattle.plan_layout.specs.Layouts.{IsSameSite};
ghost use Rattle.session_text.specs.Spaces.{IsSpace};
ghost use Rattle.evac_top.specs.Tables.{HasTablesAsked};

use crate::query::Query;
use building_table::Names;
use cards::Cards;
use edit_session::Session;
use route_decompose::Routes;
use session_text::ReportSpace;
use std::alloc::{AllocError, Global};

/// Room for what is asked for: for the routes of a session's plan, its cards, and the reports on it.
#[derive(Drop)]
pub struct Tables {
    pub routes: Option<Routes>,
    pub cards: Option<Cards>,
    pub reports: Option<ReportSpace>,
}

// Room for the routes of a session's plan, where they are asked for.
fn room_for_routes(
    alloc: Global,
    asked: bool,
    session: &Session,
) -> Result<Option<Routes>, AllocError>
    ensures asked { IfOk result (λ r. is_some r ≡ asked) }
    ensures site { IfOk result (λ r. IfSome r (λ routes. IsSameSite session.now.state.model routes.model)) }
{
    if asked {
        Ok(Some(Routes::new(alloc, session.model())?))
    } else {
        Ok(None)
    }
}

// Room for the cards of a session's plan, where they are asked for.
fn room_for_cards(
    alloc: Global,
    asked: bool,
    session: &Session,
) -> Result<Option<Cards>, AllocError>
    ensures asked { IfOk result (λ r. is_some r ≡ asked) }
    ensures site { IfOk result (λ r. IfSome r (λ c. IsSameSite session.now.state.model c.model)) }
{
    if asked {
        Ok(Some(Cards::new(alloc, session.model())?))
    } else {
        Ok(None)
    }
}

// Room for the reports on where a session stands, where they are asked for.
fn room_for_reports(
    alloc: Global,
    asked: bool,
    session: &Session,
    names: &Names,
) -> Result<Option<ReportSpace>, AllocError>
    ensures asked { IfOk result (λ r. is_some r ≡ asked) }
    ensures space { IfOk result (λ r. IfSome r (IsSpace session.now.state.model names.now)) }
{
    if asked {
        Ok(Some(ReportSpace::new(alloc, session.model(), names)?))
    } else {
        Ok(None)
    }
}

impl Tables {
    /// Takes all memory that what is asked for needs.
    pub(crate) fn new(alloc: Global, query: &Query, session: &Session) -> Result<Tables, AllocError>
        ensures { IfOk result (HasTablesAsked query.now.flags query.now.names session.now.state) }
    {
        let flags = query.flags;
        let routes = room_for_routes(alloc, flags.routes, session)?;
        let cards = room_for_cards(alloc, flags.cards, session)?;
        let reports = room_for_reports(alloc, flags.reports, session, &query.names)?;
        Ok(Tables {
            routes,
            cards,
            reports,
        })
    }
}
