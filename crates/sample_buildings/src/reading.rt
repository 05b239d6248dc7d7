//! What a text describes.
ghost use Rattle.std.specs.Prelude.{IfOk};
ghost use Rattle.evac_law.specs.Building.{IsValid};
ghost use Rattle.building_table.specs.Names.{NamesFit};

use building_table::{Building, ModelFault, read_model};
use evac_law::Model;
use line_io::{CleanSource, Lines};
use std::alloc::Global;

/// The building of a text, or its first fault.
pub fn building_of(alloc: Global, text: &str) -> Result<Building, ModelFault>
    ensures valid { IfOk result (λ building. IsValid building.model) }
    ensures names { IfOk result (λ building. NamesFit building.names building.model) }
{
    let Ok(mut source) = CleanSource::new(alloc, text.as_bytes()) else {
        return Err(ModelFault::Memory);
    };
    let Ok(mut lines) = Lines::new(alloc) else {
        return Err(ModelFault::Memory);
    };
    read_model(alloc, &mut lines, &mut source)
}

/// The model of a text, or its first fault.
pub fn model_of(alloc: Global, text: &str) -> Result<Model, ModelFault>
    ensures { IfOk result IsValid }
{
    Ok(building_of(alloc, text)?.model)
}
