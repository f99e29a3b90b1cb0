//! Typed trees of contracts: what they mean, and what their code may weigh, cost and need.
#![tactic(auto)]

mod amounts;
mod assigned_rows;
mod calls;
mod contract;
mod contract_weight;
mod expression;
mod laws;
mod loads;
mod node_amounts;
mod primitive;
mod reach;
mod statement;
mod ty;
mod waits;
mod weights;

pub use amounts::{places, stack_need};
pub use assigned_rows::{assigned, assigned_by_arms, sizes};
pub use contract::{Contract, Func, Funcs};
pub use contract_weight::weight;
pub use expression::{Expr, ExprKind, Exprs, Index, Order};
pub use laws::what_is_prescribed_lasts;
pub use node_amounts::{
    Amounts, HeadKind, expression_amounts, head_amounts, match_amounts, primitive_amounts,
};
pub use primitive::Primitive;
pub use statement::{Arm, Arms, MatchArm, MatchArms, Stmt, StmtKind, Stmts, Target, Targets};
pub use ty::{Ty, Tys};
pub use waits::{scalars, total_scalars};
