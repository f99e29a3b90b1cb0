//! What the functions of a class see besides the module (Algorand Python guide, "Contracts").

ghost use Rattle.std.specs.Prelude.{◌≡◌, [], ◌∷◌, length, IfOk, OnOk, option_copied};
ghost use Rattle.source_headers.specs.Classes as classes;
ghost use Rattle.type_check.specs.Placing as placing;

use expression_check::Sight;
use puya_base::Memory;
use py_grammar::{Class, Item, Member};
use source_headers::{Base, base_of, methods_of, signature_of};
use source_names::Methods;
use std::alloc::Global;

/// The class of a line, where it is a contract.
pub(crate) fn contract_in<'a>(
    alloc: Global,
    sight: &Sight,
    item: &'a Item,
) -> Result<Option<&'a Class>, Memory>
    ensures { IfOk result (λ c. option_copied c ≡ placing.contract_in sight.now.names item.now) }
{
    match item {
        Item::Class(class) => match base_of(alloc, &sight.names, class)? {
            Base::Contract => Ok(Some(class)),
            Base::Another => Ok(None),
            Base::Unknown => Ok(None),
        },
        _ => Ok(None),
    }
}

/// The number behind those of this many functions. More than 2^32 functions are no memory.
pub(crate) fn next_function(sight: &Sight) -> Result<u32, Memory>
    ensures { IfOk result (λ n. n ≡ length sight.now.functions) }
{
    match u32::try_from(sight.functions.len()) {
        Ok(number) => Ok(number),
        Err(_) => Err(Memory),
    }
}

/// Adds the signature of a member, where it is a function.
fn add_signature(alloc: Global, sight: &mut Sight, member: &Member) -> Result<(), Memory>
    ensures { OnOk result (sight.new ≡ placing.with_signatures sight.old (classes.functions (member.now ∷ []))) }
{
    match member {
        Member::Func(func) => {
            let signature = signature_of(alloc, &sight.names, true, func)?;
            sight.functions.push(signature)?;
            Ok(())
        }
        _ => Ok(()),
    }
}

/// Adds the signatures of a class's functions.
fn add_signatures(alloc: Global, sight: &mut Sight, members: &[Member]) -> Result<(), Memory>
    ensures { OnOk result (sight.new ≡ placing.with_signatures sight.old (classes.functions members.now)) }
{
    let mut rest = members;
    while let [first, behind @ ..] = rest {
        add_signature(alloc, sight, first)?;
        rest = behind;
    }
    Ok(())
}

/// The functions of a class are seen from here on.
pub(crate) fn enter_class(alloc: Global, sight: &mut Sight, class: &Class) -> Result<(), Memory>
    ensures { OnOk result (sight.new ≡ placing.entered sight.old (classes.functions class.now.members)) }
{
    let number = next_function(sight)?;
    let members = class.members.as_slice();
    sight.methods = methods_of(alloc, number, members)?;
    add_signatures(alloc, sight, members)
}

/// The functions of a class are no more seen; there were so many without them.
pub(crate) fn leave_class(alloc: Global, sight: &mut Sight, functions: usize)
    ensures { sight.new ≡ placing.left sight.old functions }
{
    sight.methods = Methods::new(alloc);
    sight.myself = false;
    while sight.functions.len() > functions {
        sight.functions.pop();
    }
}
