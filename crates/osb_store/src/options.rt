//! A stage's kind, by its type and the text of its options.
ghost use Rattle.serde_json.specs.View.{view};
ghost use Rattle.osb_store.specs.Recipes.{options_of, kind_in, kind_of_texts};
ghost use Rattle.osb_store.specs.Steps.{Gives};

use crate::steps::Stop;
use osb_pyread::py_value;
use osb_recipe::{KindFault, StageKind};
use serde_json::Value;
use std::alloc::Global;

/// The value, nested at most 127 deep, whose Python text this is.
fn options_of(alloc: Global, text: &str) -> Result<Value, Stop>
    ensures { Gives view result (options_of text.now) }
{
    match py_value(alloc, text)? {
        Some(options) => Ok(options),
        None => Err(Stop::Broken),
    }
}

/// The kind that a type reads in an object.
fn kind_in(alloc: Global, stage: &str, options: &Value) -> Result<StageKind, Stop>
    ensures { Gives (λ x. x) result (kind_in stage.now (view options.now)) }
{
    if !options.is_object() {
        return Err(Stop::Broken);
    }
    match StageKind::read(alloc, stage, options) {
        Ok(kind) => Ok(kind),
        Err(KindFault::UnknownStage) => Err(Stop::Broken),
        Err(KindFault::Options(_)) => Err(Stop::Broken),
        Err(KindFault::NoMemory) => Err(Stop::Memory),
    }
}

#[tactic(auto, unfolding(crate::specs::Recipes::kind_of_texts))]
pub(crate) fn kind_of_texts(alloc: Global, stage: &str, text: &str) -> Result<StageKind, Stop>
    ensures { Gives (λ x. x) result (kind_of_texts stage.now text.now) }
{
    let options = options_of(alloc, text)?;
    kind_in(alloc, stage, &options)
}
