//! The routes that make up a plan.
ghost use Rattle.std.specs.Prelude.{◌≡◌, ℕ, ◌<◌, List, length};
ghost use Rattle.std.specs.List.{All, flat_map};
ghost use Rattle.evac_law.specs.Building.{IsValid};
ghost use Rattle.evac_law.specs.Stands.{Stands};
ghost use Rattle.line_io.specs.Writer.{Writes};
ghost use Rattle.plan_layout.specs.Layouts.{IsSameSite};
ghost use Rattle.route_decompose.specs.Routes.{IsRoute};
ghost use Rattle.report_text.specs.ReportText.{SaysRoutes, route_lines, step_part};

use crate::lines::{put_number, put_route_line, put_step};
use certificate_text::put_end;
use evac_law::{Model, Standing};
use line_io::{Sink, Writer};
use route_decompose::{Route, RouteStep, Routes};

pub(crate) fn put_steps<K: Sink>(writer: &mut Writer<'_, K>, model: &Model, steps: &[RouteStep])
    requires valid { IsValid model.now }
    requires steps { All (λ s. s.arc < length model.now.arcs) steps.now }
    ensures { Writes K.Sink writer.old (flat_map (step_part model.now) steps.now) writer.new }
{
    for step in steps {
        let row = model.arc(step.arc);
        let from = model.node(row.from).name;
        let to = model.node(row.to).name;
        put_step(writer, step.moment, from, to);
    }
}

fn put_route<K: Sink>(writer: &mut Writer<'_, K>, model: &Model, route: &Route<'_>)
    requires valid { IsValid model.now }
    requires route { IsRoute model.now route.now }
    ensures { Writes K.Sink writer.old (route_lines model.now route.now) writer.new }
{
    let name = model.node(route.start()).name;
    put_route_line(writer, route.people(), name, route.entered());
    put_steps(writer, model, route.steps());
}

/// Puts routes that make up a standing plan. The index is that of the plan's answer. Where the sink fails the routes that are left are
/// found all the same, so that what was put is the front of a whole list.
pub fn put_routes<K: Sink, F: Standing>(
    writer: &mut Writer<'_, K>,
    model: &Model,
    index: u32,
    standing: &F,
    routes: &mut Routes,
)
    requires stands { Stands model.now (F.stand standing.now) }
    requires site { IsSameSite model.now routes.old.model }
    ensures text { (text : List ℕ) × SaysRoutes index model.now (F.stand standing.now).plan text
        × Writes K.Sink writer.old text writer.new }
    ensures model { routes.new.model ≡ model.now }
{
    routes.begin(model, standing);
    put_number(writer, b"routes", u64::from(index));
    while routes.next() {
        put_route(writer, model, &routes.route());
    }
    put_end(writer);
}
