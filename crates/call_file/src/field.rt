ghost use Rattle.serde_json.specs.View.{view};
ghost use Rattle.call_file.specs.Faults.{field, formed, Answers};

use crate::fault::{CallFault, FormFault, bad, missing};
use crate::forms::Form;
use serde_json::Value;
use std::alloc::Global;

/// The thing that a field's value stands for, or that the field is bad.
fn formed<T, F: Form<T>>(alloc: Global, value: &Value, name: &str, form: F) -> Result<T, CallFault>
    ensures { Answers (formed name.now (F.reads form (view value.now))) result }
{
    match form.read(alloc, value) {
        Ok(thing) => Ok(thing),
        Err(FormFault::Bad) => Err(bad(alloc, name)),
        Err(FormFault::Memory) => Err(CallFault::Memory),
    }
}

/// The field of an object: it is missing, or else bad, or else the thing that its value stands for.
pub(crate) fn field<T, F: Form<T>>(
    alloc: Global,
    object: &Value,
    name: &str,
    form: F,
) -> Result<T, CallFault>
    ensures { Answers (field name.now (F.reads form) (view object.now)) result }
{
    match object.get(name) {
        Some(value) => formed(alloc, value, name, form),
        None => Err(missing(alloc, name)),
    }
}
