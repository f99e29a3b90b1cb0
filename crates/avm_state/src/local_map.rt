ghost use Rattle.std.specs.Prelude.{◌≡◌, ◌<◌, T, option_map, slice_get, IfOk, IfErr, OnErr, OnOk, Some};
ghost use Rattle.std.specs.Option.{option_copied};
ghost use Rattle.std.specs.FinMap as map;
ghost use Rattle.avm_state.specs.Keys.{local_cmp};
ghost use Rattle.avm_state.specs.Places.{IsFound, IsGap};

use puya_base::{Blob, Memory, Value};
use std::alloc::Global;
use std::cmp::Ordering;
use std::marker::Model;

/// An account and a key of its own, with the value.
type Entry = ((Blob, Blob), Value);

/// The local values of all accounts, by account and then by key.
#[derive(Drop)]
pub(crate) struct LocalMap {
    entries: Vec<Entry>,
}

impl Model for LocalMap {
    ghost use Rattle.std.specs.Prelude.{T};
    ghost use Rattle.std.specs.FinMap as map;
    ghost use Rattle.std.specs.Coded.{coded_ℕ, coded_list, coded×};
    ghost use Rattle.puya_base.specs.declared.value.Value.{Value as StateValue};
    ghost use Rattle.avm_state.specs.Keys.{local_cmp};
    ghost use Rattle.avm_state.specs.LedgerState.{value_code};

    ghost Value = { map.FinMap local_cmp StateValue };

    ghost coded = { map.code (coded× (coded_list coded_ℕ) (coded_list coded_ℕ)) value_code };

    ghost view = { λ m. map.from_sorted m.entries.items };

    ghost invariant = { λ m. T (map.is_sorted local_cmp m.entries.items) };
}

/// How an entry's account and key compare with others.
fn compare(held: &(Blob, Blob), account: &[u8], key: &[u8]) -> Ordering
    ensures { result ≡ local_cmp held.now (account.now, key.now) }
{
    match held.0.as_slice().cmp(account) {
        Ordering::Equal => held.1.as_slice().cmp(key),
        other => other,
    }
}

/// Where the account's key stands, or else where it would go.
fn place(entries: &[Entry], account: &[u8], key: &[u8]) -> Result<usize, usize>
    requires { T (map.is_sorted local_cmp entries.now) }
    ensures found { IfOk result (λ i. IsFound local_cmp (account.now, key.now) entries.now i) }
    ensures absent { IfErr result (λ i. IsGap local_cmp (account.now, key.now) entries.now i) }
{
    let mut low = 0;
    let mut high = entries.len();
    while low < high {
        let mid = low + (high - low) / 2;
        let (held, _) = &entries[mid];
        match compare(held, account, key) {
            Ordering::Less => low = mid + 1,
            Ordering::Greater => high = mid,
            Ordering::Equal => return Ok(mid),
        }
    }
    Err(low)
}

/// Equal entries of their own.
fn copy_entries(alloc: Global, entries: &[Entry]) -> Result<Vec<Entry>, Memory>
    ensures { IfOk result (λ copies. copies.items ≡ entries.now) }
{
    let mut copies = Vec::new(alloc);
    for (held, value) in entries {
        let account = held.0.copy(alloc)?;
        let key = held.1.copy(alloc)?;
        let value = value.copy(alloc)?;
        copies.push(((account, key), value))?;
    }
    Ok(copies)
}

impl LocalMap {
    /// No entries.
    pub(crate) fn new(alloc: Global) -> LocalMap
        ensures { result ≡ map.empty }
    {
        LocalMap {
            entries: Vec::new(alloc),
        }
    }

    pub(crate) fn len(&self) -> usize
        ensures { result ≡ map.len self.now }
    {
        self.entries.as_slice().len()
    }

    /// The account at a place below the length.
    pub(crate) fn account_at(&self, i: usize) -> &[u8]
        requires { i < map.len self.now }
        ensures { option_map (λ e. e.0.0) (slice_get (map.entries self.now) i) ≡ Some result.now }
    {
        let entries: &[Entry] = self.entries.as_slice();
        let (held, _) = &entries[i];
        held.0.as_slice()
    }

    /// The key at that place.
    pub(crate) fn key_at(&self, i: usize) -> &[u8]
        requires { i < map.len self.now }
        ensures { option_map (λ e. e.0.1) (slice_get (map.entries self.now) i) ≡ Some result.now }
    {
        let entries: &[Entry] = self.entries.as_slice();
        let (held, _) = &entries[i];
        held.1.as_slice()
    }

    /// The value at that place.
    pub(crate) fn value_at(&self, i: usize) -> &Value
        requires { i < map.len self.now }
        ensures { option_map (λ e. e.1) (slice_get (map.entries self.now) i) ≡ Some result.now }
    {
        let entries: &[Entry] = self.entries.as_slice();
        let (_, value) = &entries[i];
        value
    }

    /// What stands under the account's key.
    pub(crate) fn get(&self, account: &[u8], key: &[u8]) -> Option<&Value>
        ensures { option_copied result ≡ map.get self.now (account.now, key.now) }
    {
        match place(self.entries.as_slice(), account, key) {
            Ok(i) => Some(&self.entries[i].1),
            Err(_) => None,
        }
    }

    /// Puts the value under the account's key; where memory runs out nothing has changed.
    pub(crate) fn put(
        &mut self,
        alloc: Global,
        account: &[u8],
        key: &[u8],
        value: Value,
    ) -> Result<(), Memory>
        ensures ok { OnOk result (self.new ≡ map.insert self.old (account.now, key.now) value) }
        ensures err { OnErr result (self.new ≡ self.old) }
    {
        match place(self.entries.as_slice(), account, key) {
            Ok(i) => {
                self.entries[i].1 = value;
                Ok(())
            }
            Err(i) => {
                let account = Blob::from_slice(alloc, account)?;
                let key = Blob::from_slice(alloc, key)?;
                self.entries.insert(i, ((account, key), value))?;
                Ok(())
            }
        }
    }

    /// Removes what stands under the account's key, and says whether there was something.
    pub(crate) fn remove(&mut self, account: &[u8], key: &[u8]) -> bool
        ensures was { result ≡ map.contains_key self.old (account.now, key.now) }
        ensures after { self.new ≡ map.remove self.old (account.now, key.now) }
    {
        match place(self.entries.as_slice(), account, key) {
            Ok(i) => {
                self.entries.remove(i);
                true
            }
            Err(_) => false,
        }
    }

    /// An equal map of its own.
    pub(crate) fn copy(&self, alloc: Global) -> Result<LocalMap, Memory>
        ensures { IfOk result (λ copy. copy ≡ self.now) }
    {
        let entries = copy_entries(alloc, self.entries.as_slice())?;
        Ok(LocalMap { entries })
    }
}
