//! What a module defines (Python reference 7.11, 9.2): imports, constants, functions, classes; P08 to P11, and P14 on a constant's literal.

ghost use Rattle.std.specs.Prelude.{◌≡◌, ◌++◌, ◌+◌, [], ◌∷◌, bytes_eq, false, IfOk, OnOk};
ghost use Rattle.source_names.specs.Literals as literals;
ghost use Rattle.source_headers.specs.Headers.{twice, signature};
ghost use Rattle.source_headers.specs.Modules as spec;
ghost use Rattle.algopy_library.specs.Packages as packages;
ghost use Rattle.source_headers.specs.Packages.{meant, constants_behind, functions_behind, classes_behind, short_joined, text_of, bytes_of};
ghost use Rattle.py_grammar.specs.declared.module.Item.TheVariants as item_form;

use crate::counting::next_number;
use crate::decorators::decorators;
use crate::defined::Table;
use crate::headers::{again, signature_told};
use algopy_library::{Row, package_named, typing_named};
use puya_base::{Blob, List, Memory, Name, Place, Refusal, Rule};
use py_grammar::{ConstValue, Func, Import, Item, Literal, Word};
use source_names::{
    Constant, Entry, ModuleNames, NameSet, Signature, Thing, break_rule, is_short, joined,
    number_of,
};
use std::alloc::Global;

/// Which names a module's import takes.
#[derive(Clone, Copy, Debug, PartialEq, Eq)]
enum Package {
    Algopy,
    AlgopyArc4,
    Typing,
    Another,
}

fn is_word(word: &Word, text: &str) -> bool
    ensures { result ≡ bytes_eq word.now.name text.now }
{
    word.name.as_str() == text
}

fn package_when(is_algopy: bool, is_typing: bool) -> Package
    ensures { meant result ≡ spec.package_when is_algopy is_typing }
{
    if is_algopy {
        return Package::Algopy;
    }
    if is_typing {
        return Package::Typing;
    }
    Package::Another
}

fn package_of(words: &[Word]) -> Package
    ensures { meant result ≡ spec.package_of words.now }
{
    match words {
        [] => Package::Another,
        [word] => package_when(is_word(word, "algopy"), is_word(word, "typing")),
        [first, second] => {
            if !is_word(first, "algopy") {
                return Package::Another;
            }
            if !is_word(second, "arc4") {
                return Package::Another;
            }
            Package::AlgopyArc4
        }
        [_, _, _, ..] => Package::Another,
    }
}

fn row_in(origin: Package, name: &[u8]) -> Option<Row>
    ensures { result ≡ spec.row_in (meant origin) name.now }
{
    match origin {
        Package::Algopy => package_named(name),
        Package::Typing => typing_named(name),
        Package::AlgopyArc4 | Package::Another => None,
    }
}

fn row_thing(row: Option<Row>) -> Thing
    ensures { result ≡ spec.row_thing row }
{
    match row {
        Some(Row::LeftOut) => Thing::Unknown,
        Some(row) => Thing::Library(row),
        None => Thing::Unknown,
    }
}

fn known_as(import: &Import) -> &Word
    ensures { result.now ≡ spec.known_as import.now.name import.now.known_as }
{
    match &import.known_as {
        None => &import.name,
        Some(word) => word,
    }
}

fn add_entry(alloc: Global, into: &mut List<Entry>, word: &Word, thing: Thing) -> Result<(), Memory>
    ensures { OnOk result (into.new ≡ into.old ++ spec.entry word.now thing ∷ []) }
{
    let name = Name::new(alloc, word.name.as_str())?;
    into.push(Entry {
        name,
        place: word.place,
        thing,
    })?;
    Ok(())
}

fn add_import(
    alloc: Global,
    into: &mut List<Entry>,
    origin: Package,
    import: &Import,
) -> Result<(), Memory>
    ensures { OnOk result (into.new ≡ into.old ++ spec.imported (meant origin) import.now ∷ []) }
{
    let thing = row_thing(row_in(origin, import.name.name.as_str().as_bytes()));
    add_entry(alloc, into, known_as(import), thing)
}

fn add_imports(
    alloc: Global,
    into: &mut List<Entry>,
    origin: Package,
    imports: &[Import],
) -> Result<(), Memory>
    ensures { OnOk result (into.new ≡ into.old ++ spec.all_imported (meant origin) imports.now) }
{
    let mut rest = imports;
    while let [import, behind @ ..] = rest {
        add_import(alloc, into, origin, import)?;
        rest = behind;
    }
    Ok(())
}

fn module_thing(origin: Package) -> Thing
    ensures { result ≡ spec.module_thing (meant origin) }
{
    match origin {
        Package::Typing => Thing::Library(Row::Typing),
        _ => Thing::Unknown,
    }
}

/// `import typing` is the one import of a module as a whole.
fn add_module(
    alloc: Global,
    into: &mut List<Entry>,
    words: &[Word],
    known_as: &Option<Word>,
) -> Result<(), Memory>
    ensures { OnOk result (into.new ≡ into.old ++ spec.module_entry words.now known_as.now) }
{
    let thing = module_thing(package_of(words));
    match known_as {
        Some(word) => add_entry(alloc, into, word, thing),
        None => match words {
            [] => Ok(()),
            [first, ..] => add_entry(alloc, into, first, thing),
        },
    }
}

fn name_faults(into: &mut List<Refusal>, place: Place, row: Option<Row>) -> Result<(), Memory>
    ensures { OnOk result (into.new ≡ into.old ++ spec.name_faults place row) }
{
    match row {
        Some(Row::LeftOut) => break_rule(into, Rule::P08, place),
        Some(_) => Ok(()),
        None => break_rule(into, Rule::P09, place),
    }
}

fn import_name(into: &mut List<Refusal>, import: &Import) -> Result<(), Memory>
    ensures { OnOk result (into.new ≡ into.old ++ spec.name_faults import.now.name.place (packages.package_named import.now.name.name)) }
{
    let row = package_named(import.name.name.as_str().as_bytes());
    name_faults(into, import.name.place, row)
}

fn algopy_faults(into: &mut List<Refusal>, imports: &[Import]) -> Result<(), Memory>
    ensures { OnOk result (into.new ≡ into.old ++ spec.algopy_faults imports.now) }
{
    let mut rest = imports;
    while let [import, behind @ ..] = rest {
        import_name(into, import)?;
        rest = behind;
    }
    Ok(())
}

fn is_of_typing(import: &Import) -> bool
    ensures { result ≡ spec.is_known (packages.typing_named import.now.name.name) }
{
    match typing_named(import.name.name.as_str().as_bytes()) {
        Some(_) => true,
        None => false,
    }
}

fn all_of_typing(imports: &[Import]) -> bool
    ensures { result ≡ spec.all_of_typing imports.now }
{
    let mut rest = imports;
    while let [import, behind @ ..] = rest {
        if !is_of_typing(import) {
            return false;
        }
        rest = behind;
    }
    true
}

/// P11 on an import of what `typing` has not.
fn typing_faults(into: &mut List<Refusal>, place: Place, imports: &[Import]) -> Result<(), Memory>
    ensures { OnOk result (into.new ≡ into.old ++ spec.import_faults place spec.typing imports.now) }
{
    if all_of_typing(imports) {
        return Ok(());
    }
    break_rule(into, Rule::P11, place)
}

/// P08 and P09 on the names of `algopy`, P11 on an import of anything else.
fn import_faults(
    into: &mut List<Refusal>,
    place: Place,
    origin: Package,
    imports: &[Import],
) -> Result<(), Memory>
    ensures { OnOk result (into.new ≡ into.old ++ spec.import_faults place (meant origin) imports.now) }
{
    match origin {
        Package::Algopy => algopy_faults(into, imports),
        Package::AlgopyArc4 => Ok(()),
        Package::Typing => typing_faults(into, place, imports),
        Package::Another => break_rule(into, Rule::P11, place),
    }
}

fn module_faults(into: &mut List<Refusal>, place: Place, origin: Package) -> Result<(), Memory>
    ensures { OnOk result (into.new ≡ into.old ++ spec.module_faults place (meant origin)) }
{
    match origin {
        Package::Typing => Ok(()),
        _ => break_rule(into, Rule::P11, place),
    }
}

/// The bytes of literals side by side; P14 where they are over 4096.
fn short_bytes(
    alloc: Global,
    into: &mut List<Refusal>,
    place: Place,
    parts: &[Literal],
) -> Result<Option<Blob>, Memory>
    ensures told { OnOk result (into.new ≡ into.old ++ spec.long_fault place (literals.joined parts.now)) }
    ensures value { IfOk result (λ o. o ≡ short_joined (literals.joined parts.now)) }
{
    let bytes = joined(alloc, parts)?;
    if is_short(bytes.as_slice()) {
        Ok(Some(bytes))
    } else {
        break_rule(into, Rule::P14, place)?;
        Ok(None)
    }
}

fn text_constant(bytes: Option<Blob>) -> Constant
    ensures { result ≡ text_of bytes }
{
    match bytes {
        Some(bytes) => Constant::Text(bytes),
        None => Constant::Unknown,
    }
}

fn bytes_constant(bytes: Option<Blob>) -> Constant
    ensures { result ≡ bytes_of bytes }
{
    match bytes {
        Some(bytes) => Constant::Bytes(bytes),
        None => Constant::Unknown,
    }
}

/// What a constant stands for; P14 on a literal of over 4096 bytes.
fn constant_of(
    alloc: Global,
    into: &mut List<Refusal>,
    value: &ConstValue,
) -> Result<Constant, Memory>
    ensures told { OnOk result (into.new ≡ into.old ++ spec.constant_faults value.now) }
    ensures value { IfOk result (λ c. c ≡ spec.constant_of value.now) }
{
    match value {
        ConstValue::Number(literal) => Ok(Constant::Number(number_of(literal))),
        ConstValue::Flag(_, flag) => Ok(Constant::Flag(*flag)),
        ConstValue::Text(place, parts) => {
            let bytes = short_bytes(alloc, into, *place, parts.as_slice())?;
            Ok(text_constant(bytes))
        }
        ConstValue::Bytes(place, parts) => {
            let bytes = short_bytes(alloc, into, *place, parts.as_slice())?;
            Ok(bytes_constant(bytes))
        }
    }
}

/// How many constants, functions and classes stand before a line.
#[derive(Clone, Copy)]
struct Counts {
    constants: u32,
    functions: u32,
    classes: u32,
}

/// Adds what a line defines.
fn add_item(
    alloc: Global,
    into: &mut List<Entry>,
    counts: &Counts,
    item: &Item,
) -> Result<(), Memory>
    ensures { OnOk result (into.new ≡ into.old ++ spec.entries_from counts.now.constants counts.now.functions counts.now.classes (item.now ∷ [])) }
{
    match item {
        Item::Text(_, _) => Ok(()),
        Item::Import(_, words, known_as) => add_module(alloc, into, words.as_slice(), known_as),
        Item::From(_, words, imports) | Item::FromParen(_, words, imports, _) => {
            add_imports(
                alloc,
                into,
                package_of(words.as_slice()),
                imports.as_slice(),
            )
        }
        Item::Const(word, _) => add_entry(alloc, into, word, Thing::Constant(counts.constants)),
        Item::Func(func) => add_entry(alloc, into, &func.name, Thing::Function(counts.functions)),
        Item::Class(class) => add_entry(alloc, into, &class.name, Thing::Class(counts.classes)),
    }
}

/// The numbers behind a line. More than 2^32 lines of a kind are no memory.
fn behind_item(counts: Counts, item: &Item) -> Result<Counts, Memory>
    ensures constants { IfOk result (λ n. n.constants ≡ constants_behind counts.constants item.now) }
    ensures functions { IfOk result (λ n. n.functions ≡ functions_behind counts.functions item.now) }
    ensures classes { IfOk result (λ n. n.classes ≡ classes_behind counts.classes item.now) }
{
    let Counts {
        constants,
        functions,
        classes,
    } = counts;
    match item {
        Item::Const(_, _) => Ok(Counts {
            constants: next_number(constants)?,
            functions,
            classes,
        }),
        Item::Func(_) => Ok(Counts {
            constants,
            functions: next_number(functions)?,
            classes,
        }),
        Item::Class(_) => Ok(Counts {
            constants,
            functions,
            classes: next_number(classes)?,
        }),
        _ => Ok(Counts {
            constants,
            functions,
            classes,
        }),
    }
}

/// The names that the lines of a module define; constants, functions and classes are numbered in reading order.
fn entries(alloc: Global, items: &[Item]) -> Result<List<Entry>, Memory>
    ensures { IfOk result (λ es. es ≡ spec.entries items.now) }
{
    let mut list = List::new(alloc);
    let mut counts = Counts {
        constants: 0,
        functions: 0,
        classes: 0,
    };
    let mut rest = items;
    while let [item, behind @ ..] = rest {
        add_item(alloc, &mut list, &counts, item)?;
        counts = behind_item(counts, item)?;
        rest = behind;
    }
    Ok(list)
}

/// P10 on each name that a line before defines.
fn defined_twice(alloc: Global, into: &mut List<Refusal>, entries: &[Entry]) -> Result<(), Memory>
    ensures { OnOk result (into.new ≡ into.old ++ twice [] (spec.entry_words entries.now)) }
{
    let mut seen = NameSet::new(alloc);
    let mut rest = entries;
    while let [entry, behind @ ..] = rest {
        again(alloc, into, &mut seen, entry.name.as_str(), entry.place)?;
        rest = behind;
    }
    Ok(())
}

fn func_told(
    alloc: Global,
    into: &mut List<Refusal>,
    names: &ModuleNames,
    func: &Func,
) -> Result<Signature, Memory>
    ensures told { OnOk result (into.new ≡ into.old ++ spec.item_faults names.now (item_form.Func func.now)) }
    ensures value { IfOk result (λ s. s ≡ signature names.now false func.now) }
{
    decorators(into, names, func.def, func.decorators.as_slice())?;
    signature_told(alloc, into, names, false, func)
}

/// Judges a line, and adds its constant or its signature.
fn judge_item(
    alloc: Global,
    into: &mut List<Refusal>,
    names: &ModuleNames,
    constants: &mut List<Constant>,
    functions: &mut List<Signature>,
    item: &Item,
) -> Result<(), Memory>
    ensures told { OnOk result (into.new ≡ into.old ++ spec.item_faults names.now item.now) }
    ensures constants { OnOk result (constants.new ≡ constants.old ++ spec.constants (item.now ∷ [])) }
    ensures functions { OnOk result (functions.new ≡ functions.old ++ spec.signatures names.now (item.now ∷ [])) }
{
    match item {
        Item::Text(_, _) | Item::Class(_) => Ok(()),
        Item::Import(place, words, _) => module_faults(into, *place, package_of(words.as_slice())),
        Item::From(place, words, imports) | Item::FromParen(place, words, imports, _) => {
            import_faults(
                into,
                *place,
                package_of(words.as_slice()),
                imports.as_slice(),
            )
        }
        Item::Const(_, value) => {
            constants.push(constant_of(alloc, into, value)?)?;
            Ok(())
        }
        Item::Func(func) => {
            functions.push(func_told(alloc, into, names, func)?)?;
            Ok(())
        }
    }
}

/// Judges the lines of a module, and adds its constants and its signatures.
fn judge_items(
    alloc: Global,
    into: &mut List<Refusal>,
    names: &ModuleNames,
    constants: &mut List<Constant>,
    functions: &mut List<Signature>,
    items: &[Item],
) -> Result<(), Memory>
    ensures told { OnOk result (into.new ≡ into.old ++ spec.all_item_faults names.now items.now) }
    ensures constants { OnOk result (constants.new ≡ constants.old ++ spec.constants items.now) }
    ensures functions { OnOk result (functions.new ≡ functions.old ++ spec.signatures names.now items.now) }
{
    let mut rest = items;
    while let [item, behind @ ..] = rest {
        judge_item(alloc, into, names, constants, functions, item)?;
        rest = behind;
    }
    Ok(())
}

/// What a module defines. The rules on names that it breaks are told, its classes and the bodies of its functions aside: P08 to P11, P13, P14
/// and P22. On `Memory` some of what is told may stand.
pub fn table(alloc: Global, into: &mut List<Refusal>, items: &[Item]) -> Result<Table, Memory>
    ensures told { OnOk result (into.new ≡ into.old ++ spec.names_faults items.now) }
    ensures entries { IfOk result (λ t. t.entries ≡ spec.entries items.now) }
    ensures constants { IfOk result (λ t. t.constants ≡ spec.constants items.now) }
    ensures functions { IfOk result (λ t. t.functions ≡ spec.signatures (spec.entries items.now) items.now) }
{
    let names = ModuleNames::new(alloc, entries(alloc, items)?)?;
    defined_twice(alloc, into, names.entries())?;
    let mut constants = List::new(alloc);
    let mut functions = List::new(alloc);
    judge_items(alloc, into, &names, &mut constants, &mut functions, items)?;
    Ok(Table {
        entries: names,
        constants,
        functions,
    })
}
