//! Functions as their first lines have them (Python reference 8.7): parameters, results, decorators; P10, P13 and P22 on these.

ghost use Rattle.std.specs.Prelude.{◌≡◌, ◌++◌, [], ◌∷◌, IfOk, OnOk, Some, None, MatchOption};
ghost use Rattle.source_headers.specs.Headers as spec;
ghost use Rattle.source_headers.specs.Headers.{again as again_told};
ghost use Rattle.source_names.specs.Annotations.{of_value, written as written_by};
ghost use Rattle.source_names.specs.Lookups.{with_name};

use puya_base::{List, Memory, Name, Place, Refusal, Rule};
use py_grammar::{Func, Param, TypeTree, Word};
use source_names::{
    Annotation, ModuleNames, NameSet, Parameter, Signature, break_rule, is_myself, written,
    written_value,
};
use std::alloc::Global;

/// What an annotation writes as the type of a value where no variable is in sight.
fn value_alone(
    alloc: Global,
    into: &mut List<Refusal>,
    names: &ModuleNames,
    tree: &TypeTree,
) -> Result<Annotation, Memory>
    ensures told { OnOk result (into.new ≡ into.old ++ (of_value (written_by names.now [] tree.now)).faults) }
    ensures ty { IfOk result (λ a. a.ty ≡ (of_value (written_by names.now [] tree.now)).ty) }
{
    let variables = NameSet::new(alloc);
    written_value(alloc, into, names, &variables, tree)
}

/// P13 on a parameter without an annotation.
fn annotated(
    alloc: Global,
    into: &mut List<Refusal>,
    names: &ModuleNames,
    word: &Word,
    annotation: &Option<TypeTree>,
) -> Result<Annotation, Memory>
    ensures told { OnOk result (into.new ≡ into.old ++ (spec.annotated names.now word.now annotation.now).faults) }
    ensures ty { IfOk result (λ a. a.ty ≡ (spec.annotated names.now word.now annotation.now).ty) }
{
    match annotation {
        None => {
            break_rule(into, Rule::P13, word.place)?;
            Ok(Annotation {
                place: word.place,
                ty: None,
            })
        }
        Some(tree) => { value_alone(alloc, into, names, tree) }
    }
}

fn parameter(
    alloc: Global,
    into: &mut List<Refusal>,
    names: &ModuleNames,
    param: &Param,
) -> Result<Parameter, Memory>
    ensures told { OnOk result (into.new ≡ into.old ++ (spec.annotated names.now param.now.name param.now.annotation).faults) }
    ensures value { IfOk result (λ p. p ≡ spec.parameter names.now param.now) }
{
    let annotation = annotated(alloc, into, names, &param.name, &param.annotation)?;
    Ok(Parameter {
        name: Name::new(alloc, param.name.name.as_str())?,
        place: param.name.place,
        ty: annotation.ty,
    })
}

/// The parameters of a function but `self`, with P13 on those that have no type.
fn parameters(
    alloc: Global,
    into: &mut List<Refusal>,
    names: &ModuleNames,
    params: &[Param],
) -> Result<List<Parameter>, Memory>
    ensures told { OnOk result (into.new ≡ into.old ++ spec.all_annotated names.now params.now) }
    ensures value { IfOk result (λ ps. ps ≡ spec.parameters names.now params.now) }
{
    let mut list = List::new(alloc);
    let mut rest = params;
    while let [param, behind @ ..] = rest {
        let made = parameter(alloc, into, names, param)?;
        list.push(made)?;
        rest = behind;
    }
    Ok(list)
}

/// An annotation of `self` says nothing, but it writes a type.
fn myself_annotated(
    alloc: Global,
    into: &mut List<Refusal>,
    names: &ModuleNames,
    annotation: &Option<TypeTree>,
) -> Result<(), Memory>
    ensures { OnOk result (into.new ≡ into.old ++ spec.myself_annotated names.now annotation.now) }
{
    match annotation {
        None => Ok(()),
        Some(tree) => {
            value_alone(alloc, into, names, tree)?;
            Ok(())
        }
    }
}

/// P10 on a name that stands before, which is seen from now on.
#[tactic(auto, unfolding(crate::specs::Headers::again))]
pub(crate) fn again(
    alloc: Global,
    into: &mut List<Refusal>,
    seen: &mut NameSet,
    name: &str,
    place: Place,
) -> Result<(), Memory>
    ensures told { OnOk result (into.new ≡ into.old ++ again_told seen.old name.now place) }
    ensures seen { OnOk result (seen.new ≡ with_name seen.old name.now) }
{
    if seen.note(alloc, name)? {
        break_rule(into, Rule::P10, place)?;
    }
    Ok(())
}

/// P10 on each parameter that is named as one before.
fn twice(alloc: Global, into: &mut List<Refusal>, params: &[Param]) -> Result<(), Memory>
    ensures { OnOk result (into.new ≡ into.old ++ spec.twice [] (spec.param_names params.now)) }
{
    let mut seen = NameSet::new(alloc);
    let mut rest = params;
    while let [param, behind @ ..] = rest {
        again(
            alloc,
            into,
            &mut seen,
            param.name.name.as_str(),
            param.name.place,
        )?;
        rest = behind;
    }
    Ok(())
}

/// P10 on a variable that is named as a module name.
pub fn clashes(into: &mut List<Refusal>, names: &ModuleNames, word: &Word) -> Result<(), Memory>
    ensures { OnOk result (into.new ≡ into.old ++ spec.clashes names.now word.now) }
{
    match names.thing_of(word.name.as_str()) {
        None => Ok(()),
        Some(_) => break_rule(into, Rule::P10, word.place),
    }
}

/// P10 on each parameter that is named as a module name.
fn param_clashes(
    into: &mut List<Refusal>,
    names: &ModuleNames,
    params: &[Param],
) -> Result<(), Memory>
    ensures { OnOk result (into.new ≡ into.old ++ spec.all_clashes names.now (spec.param_names params.now)) }
{
    let mut rest = params;
    while let [param, behind @ ..] = rest {
        clashes(into, names, &param.name)?;
        rest = behind;
    }
    Ok(())
}

/// The first parameter of a function of a class, where it is `self`.
pub fn myself(inside: bool, params: &[Param]) -> Option<&Param>
    ensures { MatchOption result ((spec.divided inside params.now).myself ≡ None) (λ p. (spec.divided inside params.now).myself ≡ Some p.now) }
{
    if !inside {
        return None;
    }
    match params {
        [] => None,
        [first, ..] => {
            if is_myself(first.name.name.as_str()) {
                Some(first)
            } else {
                None
            }
        }
    }
}

/// The parameters but `self`.
pub fn others(inside: bool, params: &[Param]) -> &[Param]
    ensures { result.now ≡ (spec.divided inside params.now).others }
{
    if !inside {
        return params;
    }
    match params {
        [] => params,
        [first, behind @ ..] => {
            if is_myself(first.name.name.as_str()) {
                behind
            } else {
                params
            }
        }
    }
}

fn myself_faults(
    alloc: Global,
    into: &mut List<Refusal>,
    names: &ModuleNames,
    inside: bool,
    params: &[Param],
) -> Result<(), Memory>
    ensures { OnOk result (into.new ≡ into.old ++ spec.myself_faults names.now (spec.divided inside params.now).myself) }
{
    match myself(inside, params) {
        None => Ok(()),
        Some(param) => myself_annotated(alloc, into, names, &param.annotation),
    }
}

/// P13 on a function without the type of its result.
fn resulted(
    alloc: Global,
    into: &mut List<Refusal>,
    names: &ModuleNames,
    place: Place,
    annotation: &Option<TypeTree>,
) -> Result<Annotation, Memory>
    ensures told { OnOk result (into.new ≡ into.old ++ (spec.resulted names.now place annotation.now).faults) }
    ensures ty { IfOk result (λ a. a.ty ≡ (spec.resulted names.now place annotation.now).ty) }
{
    match annotation {
        None => {
            break_rule(into, Rule::P13, place)?;
            Ok(Annotation { place, ty: None })
        }
        Some(tree) => written(alloc, into, names, &NameSet::new(alloc), tree),
    }
}

/// The signature of a function, `inside` a class or not. P08, P09, P10 and P13 on its first line are told. On `Memory` some of what is told
/// may stand.
pub fn signature_told(
    alloc: Global,
    into: &mut List<Refusal>,
    names: &ModuleNames,
    inside: bool,
    func: &Func,
) -> Result<Signature, Memory>
    ensures told { OnOk result (into.new ≡ into.old ++ spec.signature_faults names.now inside func.now) }
    ensures value { IfOk result (λ s. s ≡ spec.signature names.now inside func.now) }
{
    let params = func.params.as_slice();
    myself_faults(alloc, into, names, inside, params)?;
    let list = parameters(alloc, into, names, others(inside, params))?;
    twice(alloc, into, params)?;
    param_clashes(into, names, params)?;
    let annotation = resulted(alloc, into, names, func.place, &func.result)?;
    Ok(Signature {
        params: list,
        result: annotation.ty,
    })
}

/// The signature of a function, `inside` a class or not.
pub fn signature_of(
    alloc: Global,
    names: &ModuleNames,
    inside: bool,
    func: &Func,
) -> Result<Signature, Memory>
    ensures { IfOk result (λ s. s ≡ spec.signature names.now inside func.now) }
{
    let mut told = List::new(alloc);
    signature_told(alloc, &mut told, names, inside, func)
}
