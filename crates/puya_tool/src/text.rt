ghost use Rattle.std.specs.Prelude.{◌≡◌, ◌++◌, codes, IfOk, OnOk};
ghost use Rattle.std.specs.Fmt.{decimal, signed_decimal};
ghost use Rattle.outcome_text.specs.Text as outcome;
ghost use Rattle.puya_tool.specs.Text.{answer_text, asm_fault_text, call_fault_text, file_fault_text, label_text, line_text, named_line, program_fault_text, refusal_text, rule_text, teal_fault_text};

use crate::answer::Answer;
use avm_asm::AsmFault;
use avm_run::{ProgramFault, Ran};
use call_file::CallFault;
use outcome_text::push_ran;
use puya_base::{Blob, FileFault, Memory, Refusal, Rule};
use std::alloc::Global;
use teal_text::TealFault;

fn push_decimal(alloc: Global, out: &mut Blob, n: u64) -> Result<(), Memory>
    ensures { OnOk result (out.new ≡ out.old ++ decimal n) }
{
    let text = n.to_string(alloc)?;
    out.extend(text.as_bytes())
}

fn push_signed(alloc: Global, out: &mut Blob, n: i64) -> Result<(), Memory>
    ensures { OnOk result (out.new ≡ out.old ++ signed_decimal n) }
{
    let text = n.to_string(alloc)?;
    out.extend(text.as_bytes())
}

/// A word and a number.
fn worded(alloc: Global, word: &[u8], n: u64) -> Result<Blob, Memory>
    ensures { IfOk result (λ t. t ≡ word.now ++ decimal n) }
{
    let mut text = Blob::from_slice(alloc, word)?;
    push_decimal(alloc, &mut text, n)?;
    Ok(text)
}

fn file_word(fault: FileFault) -> &'static [u8]
    ensures { result.now ≡ file_fault_text fault }
{
    match fault {
        FileFault::Missing => b"missing",
        FileFault::TooLong => b"too long",
        FileFault::Failed => b"read failed",
        FileFault::Memory => b"",
    }
}

fn field_text(alloc: Global, word: &[u8], field: &str) -> Result<Blob, Memory>
    ensures { IfOk result (λ t. t ≡ word.now ++ field.now) }
{
    let mut text = Blob::from_slice(alloc, word)?;
    text.extend(field.as_bytes())?;
    Ok(text)
}

#[tactic(auto, unfolding(crate::specs::Text::call_fault_text))]
fn call_text(alloc: Global, fault: &CallFault) -> Result<Blob, Memory>
    ensures { IfOk result (λ t. t ≡ call_fault_text fault.now) }
{
    match fault {
        CallFault::Json => Blob::from_slice(alloc, b"json"),
        CallFault::Missing(field) => field_text(alloc, b"missing ", field.as_str()),
        CallFault::Bad(field) => field_text(alloc, b"bad ", field.as_str()),
        CallFault::Memory => Ok(Blob::new(alloc)),
    }
}

fn outside_text(alloc: Global, pc: usize, byte: u8) -> Result<Blob, Memory>
    ensures { IfOk result (λ t. t ≡ codes "outside at " ++ (decimal pc ++ (codes ": " ++ decimal byte))) }
{
    let mut text = worded(alloc, b"outside at ", pc as u64)?;
    text.extend(b": ")?;
    push_decimal(alloc, &mut text, u64::from(byte))?;
    Ok(text)
}

fn target_text(alloc: Global, pc: usize, target: i64) -> Result<Blob, Memory>
    ensures { IfOk result (λ t. t ≡ codes "target at " ++ (decimal pc ++ (codes ": " ++ signed_decimal target))) }
{
    let mut text = worded(alloc, b"target at ", pc as u64)?;
    text.extend(b": ")?;
    push_signed(alloc, &mut text, target)?;
    Ok(text)
}

#[tactic(auto, unfolding(crate::specs::Text::program_fault_text))]
fn program_text(alloc: Global, fault: ProgramFault) -> Result<Blob, Memory>
    ensures { IfOk result (λ t. t ≡ program_fault_text fault) }
{
    match fault {
        ProgramFault::Version(byte) => worded(alloc, b"version ", u64::from(byte)),
        ProgramFault::Cut(pc) => worded(alloc, b"cut at ", pc as u64),
        ProgramFault::Outside(pc, byte) => outside_text(alloc, pc, byte),
        ProgramFault::Overlong(pc) => worded(alloc, b"overlong at ", pc as u64),
        ProgramFault::Target(pc, target) => target_text(alloc, pc, target),
        ProgramFault::Memory => Ok(Blob::new(alloc)),
    }
}

fn at_line(alloc: Global, line: u32, word: &[u8]) -> Result<Blob, Memory>
    ensures { IfOk result (λ t. t ≡ line_text line word.now) }
{
    let mut text = worded(alloc, b"", u64::from(line))?;
    text.extend(b": ")?;
    text.extend(word)?;
    Ok(text)
}

#[tactic(auto, unfolding(crate::specs::Text::teal_fault_text))]
fn teal_word(alloc: Global, fault: TealFault) -> Result<Blob, Memory>
    ensures { IfOk result (λ t. t ≡ teal_fault_text fault) }
{
    match fault {
        TealFault::NotAscii(line) => at_line(alloc, line, b"not ascii"),
        TealFault::Pragma(line) => at_line(alloc, line, b"pragma"),
        TealFault::Word(line) => at_line(alloc, line, b"word"),
        TealFault::Count(line) => at_line(alloc, line, b"count"),
        TealFault::Number(line) => at_line(alloc, line, b"number"),
        TealFault::Bytes(line) => at_line(alloc, line, b"bytes"),
        TealFault::Memory => Ok(Blob::new(alloc)),
    }
}

fn of_label(alloc: Global, label: u32, what: &[u8]) -> Result<Blob, Memory>
    ensures { IfOk result (λ t. t ≡ label_text label what.now) }
{
    let mut text = worded(alloc, b"label ", u64::from(label))?;
    text.extend(what)?;
    Ok(text)
}

#[tactic(auto, unfolding(crate::specs::Text::asm_fault_text))]
fn asm_text(alloc: Global, fault: AsmFault) -> Result<Blob, Memory>
    ensures { IfOk result (λ t. t ≡ asm_fault_text fault) }
{
    match fault {
        AsmFault::NoLabel(label) => of_label(alloc, label, b" missing"),
        AsmFault::TwiceLabel(label) => of_label(alloc, label, b" twice"),
        AsmFault::Far(label, _) => of_label(alloc, label, b" far"),
        AsmFault::Memory => Ok(Blob::new(alloc)),
    }
}

/// A rule by its number and its word.
#[tactic(auto, unfolding(crate::specs::Text::rule_text))]
fn rule_word(rule: Rule) -> &'static [u8]
    ensures { result.now ≡ rule_text rule }
{
    match rule {
        Rule::P01 => b"P01 text",
        Rule::P02 => b"P02 tab",
        Rule::P03 => b"P03 indentation",
        Rule::P04 => b"P04 token",
        Rule::P05 => b"P05 number",
        Rule::P06 => b"P06 nesting",
        Rule::P07 => b"P07 syntax",
        Rule::P08 => b"P08 left out",
        Rule::P09 => b"P09 unknown name",
        Rule::P10 => b"P10 defined twice",
        Rule::P11 => b"P11 import",
        Rule::P12 => b"P12 contract",
        Rule::P13 => b"P13 annotation",
        Rule::P14 => b"P14 type",
        Rule::P15 => b"P15 arguments",
        Rule::P16 => b"P16 target",
        Rule::P17 => b"P17 unassigned",
        Rule::P18 => b"P18 no return",
        Rule::P19 => b"P19 loop word",
        Rule::P20 => b"P20 ARC-4 literal",
        Rule::P21 => b"P21 storage",
        Rule::P22 => b"P22 decorator",
        Rule::P23 => b"P23 selector twice",
        Rule::P24 => b"P24 places",
        Rule::P25 => b"P25 copy",
    }
}

/// A broken rule behind its line and its column.
#[tactic(auto, unfolding(crate::specs::Text::refusal_text))]
fn of_refusal(alloc: Global, refusal: Refusal) -> Result<Blob, Memory>
    ensures { IfOk result (λ t. t ≡ refusal_text refusal) }
{
    let mut text = worded(alloc, b"", u64::from(refusal.place.line))?;
    text.extend(b":")?;
    push_decimal(alloc, &mut text, u64::from(refusal.place.col))?;
    text.extend(b": ")?;
    text.extend(rule_word(refusal.rule))?;
    Ok(text)
}

/// A name, a mark behind it, a text and a line feed.
fn named(alloc: Global, name: &str, mark: &[u8], text: &[u8]) -> Result<Blob, Memory>
    ensures { IfOk result (λ t. t ≡ named_line name.now mark.now text.now) }
{
    let mut line = Blob::from_slice(alloc, name.as_bytes())?;
    line.extend(mark)?;
    line.extend(text)?;
    line.extend(b"\n")?;
    Ok(line)
}

fn refused(alloc: Global, name: &str, refusal: Refusal) -> Result<Blob, Memory>
    ensures { IfOk result (λ t. t ≡ named_line name.now (codes ":") (refusal_text refusal)) }
{
    let text = of_refusal(alloc, refusal)?;
    named(alloc, name, b":", text.as_slice())
}

fn bad_call(alloc: Global, name: &str, fault: &CallFault) -> Result<Blob, Memory>
    ensures { IfOk result (λ t. t ≡ named_line name.now (codes ": ") (call_fault_text fault.now)) }
{
    let text = call_text(alloc, fault)?;
    named(alloc, name, b": ", text.as_slice())
}

fn not_program(alloc: Global, name: &str, fault: ProgramFault) -> Result<Blob, Memory>
    ensures { IfOk result (λ t. t ≡ named_line name.now (codes ": ") (program_fault_text fault)) }
{
    let text = program_text(alloc, fault)?;
    named(alloc, name, b": ", text.as_slice())
}

fn not_teal(alloc: Global, name: &str, fault: TealFault) -> Result<Blob, Memory>
    ensures { IfOk result (λ t. t ≡ named_line name.now (codes ":") (teal_fault_text fault)) }
{
    let text = teal_word(alloc, fault)?;
    named(alloc, name, b":", text.as_slice())
}

fn not_assembled(alloc: Global, name: &str, fault: AsmFault) -> Result<Blob, Memory>
    ensures { IfOk result (λ t. t ≡ named_line name.now (codes ": ") (asm_fault_text fault)) }
{
    let text = asm_text(alloc, fault)?;
    named(alloc, name, b": ", text.as_slice())
}

/// What is printed where a text's code was written.
pub(crate) fn assembled(alloc: Global, name: &str, n: usize) -> Result<Blob, Memory>
    ensures { IfOk result (λ t. t ≡ named_line name.now (codes " ") (decimal n ++ codes " bytes")) }
{
    let mut text = worded(alloc, b"", n as u64)?;
    text.extend(b" bytes")?;
    named(alloc, name, b" ", text.as_slice())
}

/// What is printed where a write failed.
pub(crate) fn unwritten(alloc: Global, name: &str) -> Result<Blob, Memory>
    ensures { IfOk result (λ t. t ≡ named_line name.now (codes ": ") (codes "write failed")) }
{
    named(alloc, name, b": ", b"write failed")
}

fn stopped(alloc: Global, ran: &Ran) -> Result<Blob, Memory>
    ensures { IfOk result (λ t. t ≡ outcome.text_of ran.now) }
{
    let mut text = Blob::new(alloc);
    push_ran(alloc, &mut text, ran)?;
    Ok(text)
}

/// What is printed for an answer.
#[tactic(auto, unfolding(crate::specs::Text::answer_text))]
pub(crate) fn text_of(alloc: Global, answer: &Answer) -> Result<Blob, Memory>
    ensures { IfOk result (λ t. t ≡ answer_text answer.now) }
{
    match answer {
        Answer::WordsUnknown => Blob::from_slice(alloc, b"words not understood\n"),
        Answer::Unread(name, fault) => named(alloc, name.as_str(), b": ", file_word(*fault)),
        Answer::Refused(name, refusal) => refused(alloc, name.as_str(), *refusal),
        Answer::NotBuilt(name) => named(alloc, name.as_str(), b": ", b"not built"),
        Answer::BadCall(name, fault) => bad_call(alloc, name.as_str(), fault),
        Answer::NotProgram(name, fault) => not_program(alloc, name.as_str(), *fault),
        Answer::NotTeal(name, fault) => not_teal(alloc, name.as_str(), *fault),
        Answer::NotAssembled(name, fault) => not_assembled(alloc, name.as_str(), *fault),
        Answer::Unwritten(name) => unwritten(alloc, name.as_str()),
        Answer::Stopped(ran) => stopped(alloc, ran),
        Answer::Assembled(name, n) => assembled(alloc, name.as_str(), *n),
        Answer::Listed(text) => text.copy(alloc),
    }
}
