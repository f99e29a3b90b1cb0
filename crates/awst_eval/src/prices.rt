//! Paying the amounts of the table. Each error is want of memory, also where an amount passes 2^64-2, which that of no tree in memory does.

ghost use Rattle.std.specs.Prelude.{◌≡◌, ◌+◌, ◌*◌, ◌<◌, ◌^◌, ℕ, IfOk, OnOk};
ghost use Rattle.runs.specs.Steps.{with_seen};
ghost use Rattle.runs.specs.Seen.{paid};
ghost use Rattle.awst.specs.Capped.{capped};
ghost use Rattle.awst.specs.Functions.{function_of};
ghost use Rattle.awst.specs.Heads.{own_head};
ghost use Rattle.awst.specs.Table.{own_prim, own_match, own_return, own_flag};
ghost use Rattle.awst.specs.Tree.{node_of};
ghost use Rattle.awst.specs.Places.{scalars_of};
ghost use Rattle.awst.specs.Plain.{tree_of, optional_tree, optional_scalars};
ghost use Rattle.awst_eval.specs.Worlds.{world_of};

use crate::world::World;
use awst::{
    Expr, Func, HeadKind, Primitive, expression_amounts, head_amounts, match_amounts, places,
    primitive_amounts, scalars,
};
use puya_base::Memory;

/// The price of `True`.
const FLAG_PRICE: u64 = 4;

/// A count that doesn't stand still at the end of its type.
pub(crate) fn exact(count: u64) -> Result<u64, Memory>
    ensures { IfOk result (λ n. (n ≡ count) × ((m : ℕ) → count ≡ capped m → n ≡ m)) }
{
    if count == u64::MAX {
        return Err(Memory);
    }
    Ok(count)
}

/// The scalars of an expression's value.
pub(crate) fn exact_scalars(e: &Expr) -> Result<u64, Memory>
    ensures { IfOk result (λ n. n ≡ scalars_of (tree_of e.now)) }
{
    Ok(exact(scalars(&e.ty))?)
}

/// Pays for an expression itself, without its parts.
pub(crate) fn pay_for(world: &mut World, e: &Expr) -> Result<(), Memory>
    ensures { OnOk result (world_of world.new ≡ with_seen (world_of world.old) (paid (node_of (tree_of e.now)).own.price (world_of world.old).seen)) }
{
    world.pay(exact(expression_amounts(e).price)?)
}

/// Pays for a node that depends on so many scalars alone.
pub(crate) fn pay_head(world: &mut World, head: HeadKind, count: u64) -> Result<(), Memory>
    ensures { OnOk result (world_of world.new ≡ with_seen (world_of world.old) (paid (own_head head count).price (world_of world.old).seen)) }
{
    world.pay(exact(head_amounts(head, count).price)?)
}

/// Pays for a node that depends on the scalars of an expression's value.
pub(crate) fn pay_by(world: &mut World, head: HeadKind, e: &Expr) -> Result<(), Memory>
    ensures { OnOk result (world_of world.new ≡ with_seen (world_of world.old) (paid (own_head head (scalars_of (tree_of e.now))).price (world_of world.old).seen)) }
{
    pay_head(world, head, exact_scalars(e)?)
}

/// Pays for the operation of an augmented assignment, whose right side is the expression.
pub(crate) fn pay_operation(world: &mut World, prim: Primitive, e: &Expr) -> Result<(), Memory>
    ensures { OnOk result (world_of world.new ≡ with_seen (world_of world.old) (paid (own_prim prim (scalars_of (tree_of e.now)) 2).price (world_of world.old).seen)) }
{
    let count = exact_scalars(e)?;
    world.pay(exact(primitive_amounts(prim, count, 2).price)?)
}

/// The price of a node that depends on so many scalars alone.
pub(crate) fn head_price(head: HeadKind, count: u64) -> Result<u64, Memory>
    ensures { IfOk result (λ n. n ≡ (own_head head count).price) }
{
    Ok(exact(head_amounts(head, count).price)?)
}

/// Pays for a choice among so many literals, in which variables of so many scalars are assigned.
pub(crate) fn pay_match(world: &mut World, literals: usize, count: u64) -> Result<(), Memory>
    ensures { OnOk result (world_of world.new ≡ with_seen (world_of world.old) (paid (own_match literals 0 count).price (world_of world.old).seen)) }
{
    world.pay(exact(match_amounts(literals as u64, 0, count).price)?)
}

/// Pays for the literal `True`.
pub(crate) fn pay_flag(world: &mut World) -> Result<(), Memory>
    ensures { OnOk result (world_of world.new ≡ with_seen (world_of world.old) (paid own_flag.price (world_of world.old).seen)) }
{
    world.pay(FLAG_PRICE)
}

/// Pays for a `return` of an optional value.
pub(crate) fn pay_return(world: &mut World, e: &Option<Expr>) -> Result<(), Memory>
    ensures { OnOk result (world_of world.new ≡ with_seen (world_of world.old) (paid (own_return (optional_scalars (optional_tree e.now))).price (world_of world.old).seen)) }
{
    match e {
        Some(e) => pay_by(world, HeadKind::Return, e),
        None => pay_head(world, HeadKind::Return, 0),
    }
}

/// What a function pays when it opens.
fn function_price(func: &Func) -> Result<u64, Memory>
    ensures { IfOk result (λ n. n ≡ (function_of func.now).price) }
{
    let count = exact(places(func))?;
    let four = count.checked_mul(4).ok_or(Memory)?;
    Ok(four.checked_add(32).ok_or(Memory)?)
}

/// Pays for a function that opens.
pub(crate) fn pay_function(world: &mut World, func: &Func) -> Result<(), Memory>
    ensures { OnOk result (world_of world.new ≡ with_seen (world_of world.old) (paid (function_of func.now).price (world_of world.old).seen)) }
{
    world.pay(function_price(func)?)
}
