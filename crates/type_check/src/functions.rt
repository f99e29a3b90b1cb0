//! Functions: their variables, their notes, the rules that they break, and the typed function; P10 on variables and P24.

ghost use Rattle.std.specs.Prelude.{◌≡◌, ◌++◌, [], map, length, take, drop, None, Some, IfOk, OnOk, if◌then◌else◌};
ghost use Rattle.source_headers.specs.Headers as headers;
ghost use Rattle.type_check.specs.Functions as spec;
ghost use Rattle.statement_check.specs.Noting.{with_names};
ghost use Rattle.expression_check.specs.Sights.{seen};

use crate::types::known_copied;
use awst::{Func as TypedFunc, Stmts, Ty, Tys, places};
use expression_check::{Locals, Sight, is_nothing};
use meaning_rules::{Local, Status, tree_type};
use path_rules::{Note, Notes};
use puya_base::{List, Memory, Name, Place, Refusal, Rule, split_off};
use py_grammar::Func;
use source_names::{ModuleNames, NameSet, Parameter, Signature, SourceType};
use statement_check::{Frame, add_block, check_block};
use std::alloc::Global;

/// How many places a function may have.
const PLACE_LIMIT: u64 = 100;

fn param_local(alloc: Global, param: &Parameter) -> Result<Local, Memory>
    ensures { IfOk result (λ l. l ≡ spec.param_local param.now) }
{
    let name = Name::new(alloc, param.name.as_str())?;
    let ty = known_copied(alloc, &param.ty)?;
    Ok(Local {
        name,
        status: Status::Fixed(ty),
    })
}

/// The parameters as variables, whose names are seen then.
fn add_params(
    alloc: Global,
    seen: &mut NameSet,
    locals: &mut Vec<Local>,
    params: &[Parameter],
) -> Result<(), Memory>
    ensures locals { OnOk result (locals.new.items ≡ locals.old.items ++ map spec.param_local params.now) }
    ensures seen { OnOk result (seen.new ≡ with_names seen.old (spec.parameter_names params.now)) }
{
    let mut rest = params;
    while let [first, behind @ ..] = rest {
        seen.note(alloc, first.name.as_str())?;
        let local = param_local(alloc, first)?;
        locals.push(local)?;
        rest = behind;
    }
    Ok(())
}

/// The variables of a function before its body; P10 on those that are named as a module name.
fn first_locals(
    alloc: Global,
    told: &mut List<Refusal>,
    names: &ModuleNames,
    inside: bool,
    signature: &Signature,
    func: &Func,
) -> Result<Locals, Memory>
    ensures told { OnOk result (told.new ≡ told.old ++ headers.all_clashes names.now (spec.target_words inside signature.now func.now)) }
    ensures locals { IfOk result (λ l. l ≡ spec.first_locals inside signature.now func.now) }
{
    let mut seen = NameSet::new(alloc);
    let mut locals = Vec::new(alloc);
    add_params(alloc, &mut seen, &mut locals, signature.params.as_slice())?;
    add_block(
        alloc,
        told,
        names,
        inside,
        &mut seen,
        &mut locals,
        &func.body,
    )?;
    Locals::new(alloc, locals)
}

/// The parameters are assigned at the start.
fn assign_params(into: &mut Notes, params: &[Parameter]) -> Result<(), Memory>
    ensures { OnOk result (into.new ≡ into.old ++ spec.assigned_from 0 params.now) }
{
    let mut number: u32 = 0;
    let mut rest = params;
    while let [_first, behind @ ..] = rest {
        into.push(Note::Assign(number))?;
        number = number.checked_add(1).ok_or(Memory)?;
        rest = behind;
    }
    Ok(())
}

/// The types of variables in typed trees, where each is known.
fn local_types(alloc: Global, locals: &[Local]) -> Result<Option<Tys>, Memory>
    ensures { IfOk result (λ ts. ts ≡ spec.local_types locals.now) }
{
    let mut all = List::new(alloc);
    let mut rest = locals;
    while let [first, behind @ ..] = rest {
        let Some(ty) = status_type(alloc, &first.status)? else {
            return Ok(None);
        };
        all.push(ty)?;
        rest = behind;
    }
    Ok(Some(all))
}

fn type_known(alloc: Global, ty: &Option<SourceType>) -> Result<Option<Ty>, Memory>
    ensures { IfOk result (λ t. t ≡ spec.type_known ty.now) }
{
    match ty {
        Some(ty) => Ok(Some(tree_type(alloc, ty)?)),
        None => Ok(None),
    }
}

fn status_type(alloc: Global, status: &Status) -> Result<Option<Ty>, Memory>
    ensures { IfOk result (λ t. t ≡ spec.status_type status.now) }
{
    match status {
        Status::Unseen => Ok(None),
        Status::Fixed(ty) => type_known(alloc, ty),
    }
}

/// The typed function, of so many parameters.
fn function_of(
    alloc: Global,
    params: usize,
    func: &Func,
    gives: Ty,
    types: Tys,
    body: Stmts,
) -> Result<TypedFunc, Memory>
    ensures { IfOk result (λ f. f ≡ record { name = func.now.name.name; params = take params types; result = gives; locals = drop params types; body = body }) }
{
    let name = Name::new(alloc, func.name.name.as_str())?;
    let mut first = types;
    let at = params.min(first.len());
    let locals = split_off(alloc, &mut first, at)?;
    Ok(TypedFunc {
        name,
        params: first,
        result: gives,
        locals,
        body,
    })
}

/// The typed function, where its signature, its variables and its statements are known.
fn typed_function(
    alloc: Global,
    signature: &Signature,
    func: &Func,
    locals: &Locals,
    body: Option<Stmts>,
) -> Result<Option<TypedFunc>, Memory>
    ensures { IfOk result (λ f. f ≡ spec.function_of (length signature.now.params) func.now (spec.type_known signature.now.result) (spec.local_types locals.now) body) }
{
    let Some(gives) = type_known(alloc, &signature.result)? else {
        return Ok(None);
    };
    let Some(types) = local_types(alloc, locals.as_slice())? else {
        return Ok(None);
    };
    let Some(body) = body else {
        return Ok(None);
    };
    let params = signature.params.len();
    Ok(Some(function_of(alloc, params, func, gives, types, body)?))
}

/// P24 on a function that has more than 100 places, where each of its expressions has a type.
fn place_faults(
    told: &mut List<Refusal>,
    place: Place,
    typed: &Option<TypedFunc>,
) -> Result<(), Memory>
    ensures { OnOk result (told.new ≡ told.old ++ spec.place_faults place typed.now) }
{
    let Some(func) = typed else {
        return Ok(());
    };
    if places(func) <= PLACE_LIMIT {
        return Ok(());
    }
    told.push(Refusal {
        rule: Rule::P24,
        place,
    })?;
    Ok(())
}

/// Where a missing return is told: at the name of a function that has a result.
fn end_of(signature: &Signature, func: &Func) -> Option<Place>
    ensures { result ≡ spec.end_of signature.now func.now }
{
    match &signature.result {
        Some(ty) => end_where(is_nothing(ty), func.name.place),
        None => None,
    }
}

fn end_where(nothing: bool, place: Place) -> Option<Place>
    ensures { result ≡ (if nothing then None else Some place) }
{
    if nothing { None } else { Some(place) }
}

/// What is said of a function: its notes, where a missing return is told, and what it is where that is known.
#[derive(Drop)]
pub(crate) struct Judged {
    pub(crate) notes: Notes,
    pub(crate) end: Option<Place>,
    pub(crate) typed: Option<TypedFunc>,
}

/// A function that has this signature. The rules that it breaks besides those that its notes tell are added to those told.
pub(crate) fn judge_function(
    alloc: Global,
    told: &mut List<Refusal>,
    sight: &Sight,
    inside: bool,
    signature: &Signature,
    func: &Func,
) -> Result<Judged, Memory>
    ensures told { OnOk result (told.new ≡ told.old ++ spec.body_faults (seen sight.now []) inside signature.now func.now) }
    ensures notes { IfOk result (λ j. j.notes ≡ spec.notes_of (seen sight.now []) inside signature.now func.now) }
    ensures end { IfOk result (λ j. j.end ≡ spec.end_of signature.now func.now) }
    ensures typed { IfOk result (λ j. j.typed ≡ spec.typed_function (seen sight.now []) inside signature.now func.now) }
{
    let names = &sight.names;
    let mut locals = first_locals(alloc, told, names, inside, signature, func)?;
    let mut notes = Notes::new(alloc);
    assign_params(&mut notes, signature.params.as_slice())?;
    let gives = &signature.result;
    let frame = Frame {
        alloc,
        sight,
        gives,
    };
    let body = check_block(&frame, &mut notes, &mut locals, &func.body)?;
    let typed = typed_function(alloc, signature, func, &locals, body)?;
    place_faults(told, func.name.place, &typed)?;
    Ok(Judged {
        notes,
        end: end_of(signature, func),
        typed,
    })
}
