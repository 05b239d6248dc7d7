//! The block of a cut, as a caller writes it.
ghost use Rattle.std.specs.Prelude.{IfOk};
ghost use Rattle.evac_law.specs.Building.{IsValid};
ghost use Rattle.evac_law.specs.Certificates.{IsTableOf};

use certificate_text::write_short;
use evac_law::{Labels, Model};
use line_io::{MemSink, Out};
use sample_buildings::{THROUGH_HALL, model_of};
use std::alloc::{AllocError, Global};
use std::process::Abort;
use std::test::Fail;

// Labels with one that isn't unset.
fn labels_of(alloc: Global, model: &Model) -> Result<Labels, AllocError>
    requires { IsValid model.now }
    ensures { IfOk result (IsTableOf model.now) }
{
    let mut labels = Labels::new(alloc, model.node_count(), model.horizon)?;
    if 0 < labels.nodes() && 2 <= labels.horizon() {
        labels.set(0, 2, 4);
    }
    Ok(labels)
}

// Writes the block of a model that two people can leave.
fn put_short(sink: &mut MemSink, alloc: Global, model: &Model) -> Result<(), Fail>
    requires { IsValid model.now }
{
    let labels = labels_of(alloc, model)?;
    let mut out = Out::new(alloc)?;
    write_short(&mut out, sink, model, 10, model.people(), 2, &labels)?;
    out.flush(sink)?;
    Ok(())
}

const SHORT: &str =
    "refused 22 10\npeople 4\nmost 2\nin WP1.1 0 1\nin WP1.1 3 20\nin HA1.1 0 20\nend\n";

fn check_short(rt: &(impl Abort + AllocGlobal), model: &Model) -> Result<(), Fail>
    requires { IsValid model.now }
{
    let mut sink = MemSink::new(rt.alloc(), 200, 9, &[])?;
    put_short(&mut sink, rt.alloc(), model)?;
    assert!(rt; sink.bytes() == SHORT.as_bytes());
    Ok(())
}

#[test]
fn a_cut_is_written_in_runs(rt: HostRuntime) -> Result<(), Fail> {
    let model = model_of(rt.alloc(), THROUGH_HALL)?;
    check_short(&rt, &model)
}
