ghost use Rattle.std.specs.Prelude.{◌≡◌, ℕ, ◌+◌, ◌*◌, ◌/◌, ◌%◌, ◌≤◌, ◌==◌, nat_lt, if◌then◌else◌, List, length, Some, None, [], ◌∷◌, ◌++◌};
ghost use Rattle.avm_ops.specs.Numbers.{fitting, provided, high_word, low_word};
ghost use Rattle.avm_ops.specs.Rows.{value_row, Applies, number, words_of, results_of, equality};

use crate::answers::{Operands, number, one, text, text_of, two};
use crate::arithmetic::{arithmetic, bit_length, comparison, truth, unary, wide};
use crate::bytes::{big_endian, bit_length_of, zeros};
use crate::instr::{Imm, Instr};
use crate::parts::{
    on_extract_number, on_get_bit, on_get_byte, on_part, on_replace2, on_replace3, on_set_bit,
    on_set_byte,
};
use crate::rows::{Action, Arithmetic, Comparison, Hash, Row, Unary, ValueRow, Wide};
use crate::table::row;
use puya_base::{StepFault, Value};
use sha2::{Digest, Sha256, Sha512_256};
use std::alloc::Global;

fn on_hash(alloc: Global, row: Hash, operands: &[Value]) -> Result<Operands, StepFault>
    ensures { Applies result (results_of (ValueRow.Hash row) Imm.Nothing operands.now) }
{
    match (row, operands) {
        (Hash::Sha256, [Value::Bytes(b)]) => text_of(alloc, &Sha256::digest(b.as_slice())),
        (Hash::Sha512Of256, [Value::Bytes(b)]) => text_of(alloc, &Sha512_256::digest(b.as_slice())),
        _ => Err(StepFault::Fails),
    }
}

fn on_arithmetic(alloc: Global, row: Arithmetic, operands: &[Value]) -> Result<Operands, StepFault>
    ensures { Applies result (results_of (ValueRow.Arithmetic row) Imm.Nothing operands.now) }
{
    match operands {
        [Value::Int(a), Value::Int(b)] => number(alloc, arithmetic(row, *a, *b)),
        _ => Err(StepFault::Fails),
    }
}

fn on_comparison(alloc: Global, row: Comparison, operands: &[Value]) -> Result<Operands, StepFault>
    ensures { Applies result (results_of (ValueRow.Comparison row) Imm.Nothing operands.now) }
{
    match operands {
        [Value::Int(a), Value::Int(b)] => number(alloc, Some(truth(comparison(row, *a, *b)))),
        _ => Err(StepFault::Fails),
    }
}

fn on_unary(alloc: Global, row: Unary, operands: &[Value]) -> Result<Operands, StepFault>
    ensures { Applies result (results_of (ValueRow.Unary row) Imm.Nothing operands.now) }
{
    match operands {
        [Value::Int(a)] => number(alloc, Some(unary(row, *a))),
        _ => Err(StepFault::Fails),
    }
}

fn on_words(alloc: Global, row: Wide, operands: &[Value]) -> Result<Operands, StepFault>
    ensures { Applies result (results_of (ValueRow.Wide row) Imm.Nothing operands.now) }
{
    match (row, operands) {
        (Wide::Multiply, [Value::Int(a), Value::Int(b)]) => product(alloc, *a, *b),
        (Wide::Add, [Value::Int(a), Value::Int(b)]) => words(
            alloc,
            u128::from(*a) + u128::from(*b),
        ),
        (Wide::DivideModulo, [Value::Int(a), Value::Int(b), Value::Int(c), Value::Int(d)]) =>
            quotient_and_rest(alloc, wide(*a, *b), wide(*c, *d)),
        (Wide::Divide, [Value::Int(a), Value::Int(b), Value::Int(c)]) => quotient(
            alloc,
            wide(*a, *b),
            *c,
        ),
        _ => Err(StepFault::Fails),
    }
}

/// The words of a number, the high one deeper.
fn words(alloc: Global, n: u128) -> Result<Operands, StepFault>
    ensures { Applies result (Some (words_of n)) }
{
    two(alloc, high_word(n), low_word(n))
}

fn high_word(n: u128) -> u64
    ensures { result ≡ high_word n }
{
    (n / 0x1_0000_0000_0000_0000) as u64
}

fn low_word(n: u128) -> u64
    ensures { result ≡ low_word n }
{
    (n % 0x1_0000_0000_0000_0000) as u64
}

fn product(alloc: Global, a: u64, b: u64) -> Result<Operands, StepFault>
    ensures { Applies result (Some (words_of (a * b))) }
{
    let (low, high) = a.carrying_mul(b, 0);
    two(alloc, high, low)
}

fn quotient_and_rest(alloc: Global, dividend: u128, divisor: u128) -> Result<Operands, StepFault>
    ensures { Applies result (provided (nat_lt 0 divisor) (words_of (dividend / divisor) ++ words_of (dividend % divisor))) }
{
    if divisor == 0 {
        return Err(StepFault::Fails);
    }
    let mut results = words(alloc, dividend / divisor)?;
    let rest = dividend % divisor;
    results.push(Value::Int(high_word(rest)))?;
    results.push(Value::Int(low_word(rest)))?;
    Ok(results)
}

fn quotient(alloc: Global, dividend: u128, divisor: u64) -> Result<Operands, StepFault>
    ensures { Applies result (if divisor == 0 then None else number (fitting (dividend / divisor))) }
{
    if divisor == 0 {
        return Err(StepFault::Fails);
    }
    let quotient = dividend / u128::from(divisor);
    if quotient <= u128::from(u64::MAX) {
        number(alloc, Some(quotient as u64))
    } else {
        Err(StepFault::Fails)
    }
}

/// Whether two values are equal, if they are of one kind.
fn equality(operands: &[Value]) -> Option<bool>
    ensures { result ≡ equality operands.now }
{
    match operands {
        [Value::Int(a), Value::Int(b)] => Some(a == b),
        [Value::Bytes(a), Value::Bytes(b)] => Some(a == b),
        _ => None,
    }
}

fn on_equality(alloc: Global, operands: &[Value]) -> Result<Operands, StepFault>
    ensures { Applies result (results_of ValueRow.Equal Imm.Nothing operands.now) }
{
    match equality(operands) {
        Some(equal) => number(alloc, Some(truth(equal))),
        None => Err(StepFault::Fails),
    }
}

fn on_difference(alloc: Global, operands: &[Value]) -> Result<Operands, StepFault>
    ensures { Applies result (results_of ValueRow.NotEqual Imm.Nothing operands.now) }
{
    match equality(operands) {
        Some(equal) => number(alloc, Some(truth(!equal))),
        None => Err(StepFault::Fails),
    }
}

fn on_length(alloc: Global, operands: &[Value]) -> Result<Operands, StepFault>
    ensures { Applies result (results_of ValueRow.Len Imm.Nothing operands.now) }
{
    match operands {
        [Value::Bytes(b)] => number(alloc, Some(b.len() as u64)),
        _ => Err(StepFault::Fails),
    }
}

fn on_itob(alloc: Global, operands: &[Value]) -> Result<Operands, StepFault>
    ensures { Applies result (results_of ValueRow.Itob Imm.Nothing operands.now) }
{
    match operands {
        [Value::Int(n)] => text_of(alloc, &n.to_be_bytes()),
        _ => Err(StepFault::Fails),
    }
}

fn on_btoi(alloc: Global, operands: &[Value]) -> Result<Operands, StepFault>
    ensures { Applies result (results_of ValueRow.Btoi Imm.Nothing operands.now) }
{
    match operands {
        [Value::Bytes(b)] => {
            if b.len() <= 8 {
                number(alloc, Some(big_endian(b.as_slice())))
            } else {
                Err(StepFault::Fails)
            }
        }
        _ => Err(StepFault::Fails),
    }
}

fn on_bzero(alloc: Global, operands: &[Value]) -> Result<Operands, StepFault>
    ensures { Applies result (results_of ValueRow.Bzero Imm.Nothing operands.now) }
{
    match operands {
        [Value::Int(n)] => {
            if *n <= 4096 {
                one(alloc, Value::Bytes(zeros(alloc, *n)?))
            } else {
                Err(StepFault::Fails)
            }
        }
        _ => Err(StepFault::Fails),
    }
}

/// 2^60 bytes: so many that their bits might not be counted in 64 bits, and no memory holds them.
const TOO_MANY_BYTES: usize = 0x1000_0000_0000_0000;

fn on_bit_length(alloc: Global, operands: &[Value]) -> Result<Operands, StepFault>
    ensures { Applies result (results_of ValueRow.BitLength Imm.Nothing operands.now) }
{
    match operands {
        [Value::Int(n)] => number(alloc, Some(bit_length(*n))),
        [Value::Bytes(b)] => {
            if b.len() >= TOO_MANY_BYTES {
                return Err(StepFault::Memory);
            }
            number(alloc, Some(bit_length_of(b.as_slice())))
        }
        _ => Err(StepFault::Fails),
    }
}

fn on_select(alloc: Global, operands: &[Value]) -> Result<Operands, StepFault>
    ensures { Applies result (results_of ValueRow.Select Imm.Nothing operands.now) }
{
    match operands {
        [otherwise, chosen, Value::Int(test)] => {
            let value = if *test == 0 { otherwise } else { chosen };
            one(alloc, value.copy(alloc)?)
        }
        _ => Err(StepFault::Fails),
    }
}

fn on_concat(alloc: Global, operands: &[Value]) -> Result<Operands, StepFault>
    ensures { Applies result (results_of ValueRow.Concat Imm.Nothing operands.now) }
{
    match operands {
        [Value::Bytes(a), Value::Bytes(b)] => {
            let mut joined = a.copy(alloc)?;
            joined.extend(b.as_slice())?;
            text(alloc, joined)
        }
        _ => Err(StepFault::Fails),
    }
}

/// The results of a value row on the operands.
fn results(
    alloc: Global,
    row: ValueRow,
    imm: &Imm,
    operands: &[Value],
) -> Result<Operands, StepFault>
    ensures { Applies result (results_of row imm.now operands.now) }
{
    match row {
        ValueRow::Hash(row) => on_hash(alloc, row, operands),
        ValueRow::Arithmetic(row) => on_arithmetic(alloc, row, operands),
        ValueRow::Comparison(row) => on_comparison(alloc, row, operands),
        ValueRow::Unary(row) => on_unary(alloc, row, operands),
        ValueRow::Wide(row) => on_words(alloc, row, operands),
        ValueRow::Equal => on_equality(alloc, operands),
        ValueRow::NotEqual => on_difference(alloc, operands),
        ValueRow::Len => on_length(alloc, operands),
        ValueRow::Itob => on_itob(alloc, operands),
        ValueRow::Btoi => on_btoi(alloc, operands),
        ValueRow::Bzero => on_bzero(alloc, operands),
        ValueRow::BitLength => on_bit_length(alloc, operands),
        ValueRow::Select => on_select(alloc, operands),
        ValueRow::Concat => on_concat(alloc, operands),
        ValueRow::Part(row) => on_part(alloc, row, imm, operands),
        ValueRow::GetBit => on_get_bit(alloc, operands),
        ValueRow::SetBit => on_set_bit(alloc, operands),
        ValueRow::GetByte => on_get_byte(alloc, operands),
        ValueRow::SetByte => on_set_byte(alloc, operands),
        ValueRow::ExtractNumber(word) => on_extract_number(alloc, word, operands),
        ValueRow::Replace2 => on_replace2(alloc, imm, operands),
        ValueRow::Replace3 => on_replace3(alloc, operands),
    }
}

/// The results of an instruction of a value row on its operands, both the deepest first (AVM
/// specification, "Opcodes"). The operands may be any values; they stay as they are.
///
/// # Errors
///
/// `Fails` exactly where the row fails: also at an opcode outside the table or of another family of
/// rows, where the operands are not as many or not of the kinds that the row takes, and where the
/// bytes that it makes would be more than 4096. Or `Memory`, for want of memory; `bitlen` also
/// answers it for bytes that no memory holds, 2^60 and more.
pub fn apply(alloc: Global, instr: &Instr, operands: &Operands) -> Result<Operands, StepFault>
    ensures { Applies result (value_row instr.now operands.now) }
{
    match row(instr.op) {
        Some(
            Row {
                action: Action::Value(row),
                ..
            },
        ) => results(alloc, row, &instr.imm, operands.as_slice()),
        _ => Err(StepFault::Fails),
    }
}
