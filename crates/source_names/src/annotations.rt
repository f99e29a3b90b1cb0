//! Annotations: the types that they write (Python reference 8.7, 'annotation'); P08 and P09 on their names, P13 where they write none.

ghost use Rattle.std.specs.Prelude.{◌≡◌, ◌++◌, [], true, map, IfOk, OnOk};
ghost use Rattle.source_names.specs.Annotations as spec;
ghost use Rattle.source_names.specs.Parts as part;
ghost use Rattle.source_names.specs.Types.{plain};

use crate::faults::break_rule;
use crate::limits::fits_limits;
use crate::module_names::ModuleNames;
use crate::name_set::NameSet;
use crate::named::Thing;
use crate::things::dotted;
use crate::types::SourceType;
use algopy_library::{Row, Scalar};
use puya_base::{List, Memory, Place, Refusal, Rule};
use py_grammar::{TypeArg, TypeTree};
use std::alloc::Global;

/// What an annotation writes: its place, and its type where that is known.
#[derive(Drop)]
pub struct Annotation {
    pub place: Place,
    pub ty: Option<SourceType>,
}

/// What stands in the brackets of a type: whether each part is known, whether each is a type, and the types among them.
#[derive(Drop)]
struct Arguments {
    known: bool,
    typed: bool,
    types: List<SourceType>,
}

fn writes(place: Place, ty: SourceType) -> Annotation
    ensures place { result.place ≡ (spec.writes place ty).place }
    ensures ty { result.ty ≡ (spec.writes place ty).ty }
{
    Annotation {
        place,
        ty: Some(ty),
    }
}

/// P13.
fn no_type(into: &mut List<Refusal>, place: Place) -> Result<Annotation, Memory>
    ensures told { OnOk result (into.new ≡ into.old ++ (spec.no_type place).faults) }
    ensures place { IfOk result (λ a. a.place ≡ (spec.no_type place).place) }
    ensures ty { IfOk result (λ a. a.ty ≡ (spec.no_type place).ty) }
{
    break_rule(into, Rule::P13, place)?;
    Ok(Annotation { place, ty: None })
}

fn row_type(into: &mut List<Refusal>, place: Place, row: Row) -> Result<Annotation, Memory>
    ensures told { OnOk result (into.new ≡ into.old ++ (spec.row_type place row).faults) }
    ensures place { IfOk result (λ a. a.place ≡ (spec.row_type place row).place) }
    ensures ty { IfOk result (λ a. a.ty ≡ (spec.row_type place row).ty) }
{
    let scalar = match row {
        Row::UInt64 => Scalar::UInt64,
        Row::Bool => Scalar::Bool,
        Row::Bytes => Scalar::Bytes,
        Row::Text => Scalar::Text,
        Row::Account => Scalar::Account,
        _ => return no_type(into, place),
    };
    Ok(writes(place, SourceType::Scalar(scalar)))
}

/// The type of a name alone.
fn thing_type(into: &mut List<Refusal>, place: Place, thing: Thing) -> Result<Annotation, Memory>
    ensures told { OnOk result (into.new ≡ into.old ++ (spec.thing_type place thing).faults) }
    ensures place { IfOk result (λ a. a.place ≡ (spec.thing_type place thing).place) }
    ensures ty { IfOk result (λ a. a.ty ≡ (spec.thing_type place thing).ty) }
{
    match thing {
        Thing::Library(row) => row_type(into, place, row),
        Thing::Unknown => Ok(Annotation { place, ty: None }),
        _ => no_type(into, place),
    }
}

fn is_nothing(ty: &SourceType) -> bool
    ensures { result ≡ spec.is_nothing (plain ty.now) }
{
    matches!(ty, SourceType::Nothing)
}

fn writes_nothing(ty: &Option<SourceType>) -> bool
    ensures { result ≡ part.writes_nothing ty.now }
{
    match ty {
        Some(ty) => is_nothing(ty),
        None => false,
    }
}

/// The type of a value: `None` is none.
#[tactic(auto, unfolding(crate::specs::Parts::value_faults, crate::specs::Parts::value_type))]
fn of_value(into: &mut List<Refusal>, annotation: Annotation) -> Result<Annotation, Memory>
    ensures told { OnOk result (into.new ≡ into.old ++ part.value_faults annotation.place annotation.ty) }
    ensures place { IfOk result (λ a. a.place ≡ annotation.place) }
    ensures ty { IfOk result (λ a. a.ty ≡ part.value_type annotation.ty) }
{
    if writes_nothing(&annotation.ty) {
        no_type(into, annotation.place)
    } else {
        Ok(annotation)
    }
}

/// P13 on a tuple that is too large.
fn within_limits(
    into: &mut List<Refusal>,
    place: Place,
    ty: SourceType,
) -> Result<Annotation, Memory>
    ensures told { OnOk result (into.new ≡ into.old ++ (spec.within_limits place ty).faults) }
    ensures place { IfOk result (λ a. a.place ≡ (spec.within_limits place ty).place) }
    ensures ty { IfOk result (λ a. a.ty ≡ (spec.within_limits place ty).ty) }
{
    if fits_limits(&ty) {
        Ok(writes(place, ty))
    } else {
        no_type(into, place)
    }
}

fn tuple_type(
    into: &mut List<Refusal>,
    place: Place,
    types: Option<List<SourceType>>,
) -> Result<Annotation, Memory>
    ensures told { OnOk result (into.new ≡ into.old ++ (spec.tuple_type place types).faults) }
    ensures place { IfOk result (λ a. a.place ≡ (spec.tuple_type place types).place) }
    ensures ty { IfOk result (λ a. a.ty ≡ (spec.tuple_type place types).ty) }
{
    match types {
        Some(types) => within_limits(into, place, SourceType::Tuple(types)),
        None => no_type(into, place),
    }
}

fn applied_row(
    into: &mut List<Refusal>,
    place: Place,
    row: Row,
    types: Option<List<SourceType>>,
) -> Result<Annotation, Memory>
    ensures told { OnOk result (into.new ≡ into.old ++ (spec.applied_row place row types).faults) }
    ensures place { IfOk result (λ a. a.place ≡ (spec.applied_row place row types).place) }
    ensures ty { IfOk result (λ a. a.ty ≡ (spec.applied_row place row types).ty) }
{
    match row {
        Row::Tuple => tuple_type(into, place, types),
        _ => no_type(into, place),
    }
}

/// A name with arguments, each of which is known.
fn applied(
    into: &mut List<Refusal>,
    place: Place,
    thing: Thing,
    types: Option<List<SourceType>>,
) -> Result<Annotation, Memory>
    ensures told { OnOk result (into.new ≡ into.old ++ (spec.applied place thing (record { faults = []; known = true; types = types })).faults) }
    ensures place { IfOk result (λ a. a.place ≡ place) }
    ensures ty { IfOk result (λ a. a.ty ≡ (spec.applied place thing (record { faults = []; known = true; types = types })).ty) }
{
    match thing {
        Thing::Library(row) => applied_row(into, place, row, types),
        Thing::Unknown => Ok(Annotation { place, ty: None }),
        _ => no_type(into, place),
    }
}

/// The types, where each part is one.
fn types_of(arguments: Arguments) -> Option<List<SourceType>>
    ensures { result ≡ part.types_when arguments.typed arguments.types }
{
    if arguments.typed {
        Some(arguments.types)
    } else {
        None
    }
}

/// A name with arguments is judged where each argument is known.
fn applied_type(
    into: &mut List<Refusal>,
    place: Place,
    thing: Thing,
    arguments: Arguments,
) -> Result<Annotation, Memory>
    ensures told { OnOk result (into.new ≡ into.old ++ (spec.applied place thing (record { faults = []; known = arguments.known; types = part.types_when arguments.typed arguments.types })).faults) }
    ensures place { IfOk result (λ a. a.place ≡ place) }
    ensures ty { IfOk result (λ a. a.ty ≡ (spec.applied place thing (record { faults = []; known = arguments.known; types = part.types_when arguments.typed arguments.types })).ty) }
{
    if arguments.known {
        applied(into, place, thing, types_of(arguments))
    } else {
        Ok(Annotation { place, ty: None })
    }
}

/// What stands in the brackets of a type: a type where that is known, or a number.
#[derive(Drop)]
enum Argument {
    Type(SourceType),
    Broken,
    Number,
}

fn argument_of(annotation: Annotation) -> Argument
    ensures { result ≡ part.argument_of annotation.ty }
{
    match annotation.ty {
        Some(ty) => Argument::Type(ty),
        None => Argument::Broken,
    }
}

#[cycle(written)]
fn one_argument(
    alloc: Global,
    into: &mut List<Refusal>,
    names: &ModuleNames,
    variables: &NameSet,
    arg: &TypeArg,
) -> Result<Argument, Memory>
    ensures told { OnOk result (into.new ≡ into.old ++ part.argument_faults (part.argument names.now variables.now arg.now)) }
    ensures value { IfOk result (λ a. a ≡ part.argument_value (part.argument names.now variables.now arg.now)) }
{
    match arg {
        TypeArg::Type(tree) => {
            let annotation = written(alloc, into, names, variables, tree)?;
            Ok(argument_of(of_value(into, annotation)?))
        }
        TypeArg::Number(_) => Ok(Argument::Number),
    }
}

/// Takes one more part.
fn add_argument(arguments: &mut Arguments, argument: Argument) -> Result<(), Memory>
    ensures known { OnOk result (arguments.new.known ≡ part.known_with arguments.old.known argument) }
    ensures typed { OnOk result (arguments.new.typed ≡ part.typed_with arguments.old.typed argument) }
    ensures types { OnOk result (arguments.new.types ≡ part.types_with arguments.old.types argument) }
{
    match argument {
        Argument::Type(ty) => arguments.types.push(ty)?,
        Argument::Broken => {
            arguments.known = false;
            arguments.typed = false;
        }
        Argument::Number => arguments.typed = false,
    }
    Ok(())
}

#[cycle(written)]
#[tactic(auto, using(crate::proofs::Writing::gathered_first))]
fn all_arguments(
    alloc: Global,
    into: &mut List<Refusal>,
    names: &ModuleNames,
    variables: &NameSet,
    args: &[TypeArg],
) -> Result<Arguments, Memory>
    ensures told { OnOk result (into.new ≡ into.old ++ (spec.arguments (map (part.argument names.now variables.now) args.now)).faults) }
    ensures known { IfOk result (λ a. a.known ≡ (spec.arguments (map (part.argument names.now variables.now) args.now)).known) }
    ensures types { IfOk result (λ a. part.types_when a.typed a.types ≡ (spec.arguments (map (part.argument names.now variables.now) args.now)).types) }
{
    let mut arguments = Arguments {
        known: true,
        typed: true,
        types: List::new(alloc),
    };
    for arg in args {
        let argument = one_argument(alloc, into, names, variables, arg)?;
        add_argument(&mut arguments, argument)?;
    }
    Ok(arguments)
}

/// What an annotation writes in a module with these names, inside a function with these variables: its place, and its type where that is
/// known. P08, P09 and P13 are told. On `Memory` some of what is told may stand.
#[cycle(written)]
pub fn written(
    alloc: Global,
    into: &mut List<Refusal>,
    names: &ModuleNames,
    variables: &NameSet,
    tree: &TypeTree,
) -> Result<Annotation, Memory>
    ensures told { OnOk result (into.new ≡ into.old ++ (spec.written names.now variables.now tree.now).faults) }
    ensures place { IfOk result (λ a. a.place ≡ (spec.written names.now variables.now tree.now).place) }
    ensures ty { IfOk result (λ a. a.ty ≡ (spec.written names.now variables.now tree.now).ty) }
{
    match tree {
        TypeTree::None(place) => Ok(writes(*place, SourceType::Nothing)),
        TypeTree::Named(place, words) => {
            let thing = dotted(into, names, variables, words.as_slice())?;
            thing_type(into, *place, thing)
        }
        TypeTree::Of(place, words, args, _) => {
            let thing = dotted(into, names, variables, words.as_slice())?;
            let arguments = all_arguments(alloc, into, names, variables, args.as_slice())?;
            applied_type(into, *place, thing, arguments)
        }
    }
}

/// What an annotation writes as the type of a value, which `None` is not. P08, P09 and P13 are told. On `Memory` some of what is told may
/// stand.
#[tactic(auto, using(crate::proofs::Writing::told_value, crate::proofs::Writing::value_is))]
pub fn written_value(
    alloc: Global,
    into: &mut List<Refusal>,
    names: &ModuleNames,
    variables: &NameSet,
    tree: &TypeTree,
) -> Result<Annotation, Memory>
    ensures told { OnOk result (into.new ≡ into.old ++ (spec.of_value (spec.written names.now variables.now tree.now)).faults) }
    ensures place { IfOk result (λ a. a.place ≡ (spec.written names.now variables.now tree.now).place) }
    ensures ty { IfOk result (λ a. a.ty ≡ (spec.of_value (spec.written names.now variables.now tree.now)).ty) }
{
    let annotation = written(alloc, into, names, variables, tree)?;
    of_value(into, annotation)
}
