//! Small buildings, and labels that a case gives.
ghost use Rattle.std.specs.Prelude.{◌≡◌, IfOk};
ghost use Rattle.evac_law.specs.Building.{IsValid};
ghost use Rattle.evac_law.specs.Certificates.{IsTableOf};
ghost use Rattle.plain_plan.specs.Sizes.{IsSmall};

use building_table::ModelFault;
use evac_law::{Labels, Model};
use sample_buildings::model_of;
use std::alloc::{AllocError, Global};

/// The model of a text, which is small enough to be summed up plainly.
#[tactic(auto, using(crate::proofs::Small::small))]
pub(crate) fn small_model(alloc: Global, text: &str) -> Result<Model, ModelFault>
    ensures valid { IfOk result IsValid }
    ensures sizes { IfOk result IsSmall }
{
    model_of(alloc, text)
}

/// A node, the first moment at which it has a label, the first at which it hasn't any more, and the label.
pub(crate) type LabelRun = (u32, u16, u16, u16);

fn set_run(labels: &mut Labels, run: LabelRun)
    ensures nodes { labels.new.nodes ≡ labels.old.nodes }
    ensures horizon { labels.new.horizon ≡ labels.old.horizon }
{
    let (node, first, end, label) = run;
    for moment in first..end {
        if node < labels.nodes() && moment <= labels.horizon() {
            labels.set(node, moment, label);
        }
    }
}

/// The labels of runs, of which later ones replace earlier ones.
pub(crate) fn labels_of(
    alloc: Global,
    model: &Model,
    runs: &[LabelRun],
) -> Result<Labels, AllocError>
    requires { IsValid model.now }
    ensures { IfOk result (IsTableOf model.now) }
{
    let mut labels = Labels::new(alloc, model.node_count(), model.horizon)?;
    for run in runs {
        set_run(&mut labels, *run);
    }
    Ok(labels)
}
