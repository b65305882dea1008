//! What a stage is read as.
ghost use Rattle.std.specs.Prelude.{◌≡◌, ◌≢◌, IfOk, Err};
ghost use Rattle.serde_json.specs.View.{view};
ghost use Rattle.osb_manifest.specs.Walks.{stage_kind};

use osb_base::NoMemory;
use osb_recipe::{KindFault, StageKind};
use osb_shape::values::{object_at, text_at};
use serde_json::{Map, Value};
use std::alloc::{AllocError, Global};

/// The kind of a stage, where it has a type.
pub fn read_kind(
    alloc: Global,
    stage: &Value,
) -> Result<Option<Result<StageKind, KindFault>>, NoMemory>
    ensures { IfOk result (λ kind. kind ≡ stage_kind (view stage.now)) }
{
    let Some(text) = text_at(stage, "type") else {
        return Ok(None);
    };
    let empty = Value::Object(Map::new(alloc));
    let options = object_at(stage, "options", &empty);
    Ok(Some(unless_memory(StageKind::read(alloc, text, options))?))
}

fn unless_memory(
    kind: Result<StageKind, KindFault>,
) -> Result<Result<StageKind, KindFault>, NoMemory>
    ensures kept { IfOk result (λ same. same ≡ kind) }
    ensures made { IfOk result (λ same. same ≢ Err KindFault.NoMemory) }
{
    match kind {
        Ok(kind) => Ok(Ok(kind)),
        Err(KindFault::UnknownStage) => Ok(Err(KindFault::UnknownStage)),
        Err(KindFault::Options(fault)) => Ok(Err(KindFault::Options(fault))),
        Err(KindFault::NoMemory) => Err(AllocError),
    }
}
