//! The names of instructions and fields.

ghost use Rattle.std.specs.Prelude.{◌≡◌, map};
ghost use Rattle.teal_line.specs.Mnemonics as spec;

use avm_ops::Fields;

/// Numbers with their names.
type Table = &'static [(u8, &'static [u8])];

/// The opcodes with their names (AVM specification, "Opcodes").
static MNEMONICS: [(u8, &[u8]); 109] = [
    (0x00, b"err"),
    (0x01, b"sha256"),
    (0x03, b"sha512_256"),
    (0x08, b"+"),
    (0x09, b"-"),
    (0x0a, b"/"),
    (0x0b, b"*"),
    (0x0c, b"<"),
    (0x0d, b">"),
    (0x0e, b"<="),
    (0x0f, b">="),
    (0x10, b"&&"),
    (0x11, b"||"),
    (0x12, b"=="),
    (0x13, b"!="),
    (0x14, b"!"),
    (0x15, b"len"),
    (0x16, b"itob"),
    (0x17, b"btoi"),
    (0x18, b"%"),
    (0x19, b"|"),
    (0x1a, b"&"),
    (0x1b, b"^"),
    (0x1c, b"~"),
    (0x1d, b"mulw"),
    (0x1e, b"addw"),
    (0x1f, b"divmodw"),
    (0x20, b"intcblock"),
    (0x21, b"intc"),
    (0x22, b"intc_0"),
    (0x23, b"intc_1"),
    (0x24, b"intc_2"),
    (0x25, b"intc_3"),
    (0x26, b"bytecblock"),
    (0x27, b"bytec"),
    (0x28, b"bytec_0"),
    (0x29, b"bytec_1"),
    (0x2a, b"bytec_2"),
    (0x2b, b"bytec_3"),
    (0x31, b"txn"),
    (0x32, b"global"),
    (0x34, b"load"),
    (0x35, b"store"),
    (0x36, b"txna"),
    (0x40, b"bnz"),
    (0x41, b"bz"),
    (0x42, b"b"),
    (0x43, b"return"),
    (0x44, b"assert"),
    (0x45, b"bury"),
    (0x46, b"popn"),
    (0x47, b"dupn"),
    (0x48, b"pop"),
    (0x49, b"dup"),
    (0x4a, b"dup2"),
    (0x4b, b"dig"),
    (0x4c, b"swap"),
    (0x4d, b"select"),
    (0x4e, b"cover"),
    (0x4f, b"uncover"),
    (0x50, b"concat"),
    (0x51, b"substring"),
    (0x52, b"substring3"),
    (0x53, b"getbit"),
    (0x54, b"setbit"),
    (0x55, b"getbyte"),
    (0x56, b"setbyte"),
    (0x57, b"extract"),
    (0x58, b"extract3"),
    (0x59, b"extract_uint16"),
    (0x5a, b"extract_uint32"),
    (0x5b, b"extract_uint64"),
    (0x5c, b"replace2"),
    (0x5d, b"replace3"),
    (0x62, b"app_local_get"),
    (0x63, b"app_local_get_ex"),
    (0x64, b"app_global_get"),
    (0x65, b"app_global_get_ex"),
    (0x66, b"app_local_put"),
    (0x67, b"app_global_put"),
    (0x68, b"app_local_del"),
    (0x69, b"app_global_del"),
    (0x80, b"pushbytes"),
    (0x81, b"pushint"),
    (0x82, b"pushbytess"),
    (0x83, b"pushints"),
    (0x88, b"callsub"),
    (0x89, b"retsub"),
    (0x8a, b"proto"),
    (0x8b, b"frame_dig"),
    (0x8c, b"frame_bury"),
    (0x8d, b"switch"),
    (0x8e, b"match"),
    (0x90, b"shl"),
    (0x91, b"shr"),
    (0x92, b"sqrt"),
    (0x93, b"bitlen"),
    (0x94, b"exp"),
    (0x97, b"divw"),
    (0xaf, b"bzero"),
    (0xb0, b"log"),
    (0xb9, b"box_create"),
    (0xba, b"box_extract"),
    (0xbb, b"box_replace"),
    (0xbc, b"box_del"),
    (0xbd, b"box_len"),
    (0xbe, b"box_get"),
    (0xbf, b"box_put"),
    (0xc0, b"txnas"),
];

/// The fields of `txn` (AVM specification, "Transaction Fields").
static TRANSACTION_FIELDS: [(u8, &[u8]); 6] = [
    (0, b"Sender"),
    (1, b"Fee"),
    (5, b"Note"),
    (24, b"ApplicationID"),
    (25, b"OnCompletion"),
    (27, b"NumAppArgs"),
];

/// The fields of `global` (AVM specification, "Global Fields").
static GLOBAL_FIELDS: [(u8, &[u8]); 5] = [
    (3, b"ZeroAddress"),
    (6, b"Round"),
    (7, b"LatestTimestamp"),
    (8, b"CurrentApplicationID"),
    (9, b"CreatorAddress"),
];

/// The fields of `txna` and `txnas`.
static ARRAY_FIELDS: [(u8, &[u8]); 1] = [(26, b"ApplicationArgs")];

/// The name of a number in a table, or no bytes.
fn name_in(mut table: Table, number: u8) -> &'static [u8]
    ensures { result.now ≡ spec.name_in (map (λ e. (e.0, e.1.now)) table.entry.now) number }
{
    while let [(n, name), rest @ ..] = table {
        if number == *n {
            return name;
        }
        table = rest;
    }
    b""
}

/// The number of a name in a table.
fn number_in(mut table: Table, name: &[u8]) -> Option<u8>
    ensures { result ≡ spec.number_in (map (λ e. (e.0, e.1.now)) table.entry.now) name.now }
{
    while let [(n, known), rest @ ..] = table {
        if *known == name {
            return Some(*n);
        }
        table = rest;
    }
    None
}

#[tactic(auto, unfolding(crate::specs::Mnemonics::name_of, crate::specs::Mnemonics::mnemonics))]
/// The name of an opcode, or no bytes where it is none.
pub(crate) fn name_of(op: u8) -> &'static [u8]
    ensures { result.now ≡ spec.name_of op }
{
    name_in(&MNEMONICS, op)
}

#[tactic(auto, unfolding(crate::specs::Mnemonics::opcode_named, crate::specs::Mnemonics::mnemonics))]
/// The opcode of a name.
pub(crate) fn opcode_named(name: &[u8]) -> Option<u8>
    ensures { result ≡ spec.opcode_named name.now }
{
    number_in(&MNEMONICS, name)
}

fn field_names(fields: Fields) -> Table
    ensures { map (λ e. (e.0, e.1.now)) result.now ≡ spec.field_names fields }
{
    match fields {
        Fields::Transaction => &TRANSACTION_FIELDS,
        Fields::Global => &GLOBAL_FIELDS,
        Fields::Array => &ARRAY_FIELDS,
    }
}

/// The name of a field, or no bytes where it is none.
pub(crate) fn field_name(fields: Fields, field: u8) -> &'static [u8]
    ensures { result.now ≡ spec.field_name fields field }
{
    name_in(field_names(fields), field)
}

/// The field of a name.
pub(crate) fn field_named(fields: Fields, name: &[u8]) -> Option<u8>
    ensures { result ≡ spec.field_named fields name.now }
{
    number_in(field_names(fields), name)
}
