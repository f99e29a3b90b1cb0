ghost use Rattle.std.specs.Prelude.{◌≡◌, ◌<◌, T, option_map, slice_get, IfOk, IfErr, OnErr, OnOk, Some};
ghost use Rattle.std.specs.Option.{option_copied};
ghost use Rattle.std.specs.FinMap as map;
ghost use Rattle.avm_state.specs.Keys.{bytes_cmp};
ghost use Rattle.avm_state.specs.Places.{IsFound, IsGap};
ghost use Rattle.avm_state.specs.Steps.{WritesPart, Overwrites};

use crate::copied::Copied;
use puya_base::{Blob, Memory};
use std::alloc::Global;
use std::cmp::Ordering;
use std::marker::Model;

/// A map from byte keys, in byte order.
#[derive(Drop)]
pub(crate) struct BytesMap<V> {
    entries: Vec<(Blob, V)>,
}

impl<V> Model for BytesMap<V> {
    ghost use Rattle.std.specs.Prelude.{T, List, ℕ};
    ghost use Rattle.std.specs.FinMap as map;
    ghost use Rattle.std.specs.Coded.{coded_ℕ, coded_list};
    ghost use Rattle.avm_state.specs.Keys.{bytes_cmp};

    ghost Value = { map.FinMap bytes_cmp V };

    ghost coded = { map.code (coded_list coded_ℕ) V.code };

    ghost view = { λ m. map.from_sorted m.entries.items };

    ghost invariant = { λ m. T (map.is_sorted bytes_cmp m.entries.items) };
}

/// Where the key stands, or else where it would go.
fn place<V>(entries: &[(Blob, V)], key: &[u8]) -> Result<usize, usize>
    requires { T (map.is_sorted bytes_cmp entries.now) }
    ensures found { IfOk result (λ i. IsFound bytes_cmp key.now entries.now i) }
    ensures absent { IfErr result (λ i. IsGap bytes_cmp key.now entries.now i) }
{
    let mut low = 0;
    let mut high = entries.len();
    while low < high {
        let mid = low + (high - low) / 2;
        let (held, _) = &entries[mid];
        match held.as_slice().cmp(key) {
            Ordering::Less => low = mid + 1,
            Ordering::Greater => high = mid,
            Ordering::Equal => return Ok(mid),
        }
    }
    Err(low)
}

/// Writes a part over the bytes from `start` on, and says whether it stands within them.
fn write_part(bytes: &mut Blob, start: u64, part: &[u8]) -> bool
    ensures { WritesPart bytes.old bytes.new start part.now result }
{
    let size = bytes.len() as u64;
    if start > size || part.len() as u64 > size - start {
        return false;
    }
    bytes.replace(start as usize, part);
    true
}

impl<V> BytesMap<V> {
    /// No entries.
    pub(crate) fn new(alloc: Global) -> BytesMap<V>
        ensures { result ≡ map.empty }
    {
        BytesMap {
            entries: Vec::new(alloc),
        }
    }

    pub(crate) fn len(&self) -> usize
        ensures { result ≡ map.len self.now }
    {
        self.entries.as_slice().len()
    }

    /// The key at a place below the length, in byte order.
    pub(crate) fn key_at(&self, i: usize) -> &[u8]
        requires { i < map.len self.now }
        ensures { option_map (λ e. e.0) (slice_get (map.entries self.now) i) ≡ Some result.now }
    {
        let entries: &[(Blob, V)] = self.entries.as_slice();
        let (key, _) = &entries[i];
        key.as_slice()
    }

    /// What stands under that key.
    pub(crate) fn value_at(&self, i: usize) -> &V
        requires { i < map.len self.now }
        ensures { option_map (λ e. e.1) (slice_get (map.entries self.now) i) ≡ Some result.now }
    {
        let entries: &[(Blob, V)] = self.entries.as_slice();
        let (_, value) = &entries[i];
        value
    }

    /// What stands under the key.
    pub(crate) fn get(&self, key: &[u8]) -> Option<&V>
        ensures { option_copied result ≡ map.get self.now key.now }
    {
        match place(self.entries.as_slice(), key) {
            Ok(i) => Some(&self.entries[i].1),
            Err(_) => None,
        }
    }
}

impl<V: Drop> BytesMap<V> {
    /// Puts the value under the key; where memory runs out nothing has changed.
    pub(crate) fn put(&mut self, alloc: Global, key: &[u8], value: V) -> Result<(), Memory>
        ensures ok { OnOk result (self.new ≡ map.insert self.old key.now value) }
        ensures err { OnErr result (self.new ≡ self.old) }
    {
        match place(self.entries.as_slice(), key) {
            Ok(i) => {
                self.entries[i].1 = value;
                Ok(())
            }
            Err(i) => {
                let key = Blob::from_slice(alloc, key)?;
                self.entries.insert(i, (key, value))?;
                Ok(())
            }
        }
    }

    /// Removes what stands under the key, and says whether there was something.
    pub(crate) fn remove(&mut self, key: &[u8]) -> bool
        ensures was { result ≡ map.contains_key self.old key.now }
        ensures after { self.new ≡ map.remove self.old key.now }
    {
        match place(self.entries.as_slice(), key) {
            Ok(i) => {
                self.entries.remove(i);
                true
            }
            Err(_) => false,
        }
    }
}

/// Equal entries of their own.
fn copy_entries<V: Copied + Drop>(
    alloc: Global,
    entries: &[(Blob, V)],
) -> Result<Vec<(Blob, V)>, Memory>
    ensures { IfOk result (λ copies. copies.items ≡ entries.now) }
{
    let mut copies = Vec::new(alloc);
    for (key, value) in entries {
        let key = key.copy(alloc)?;
        let value = value.copied(alloc)?;
        copies.push((key, value))?;
    }
    Ok(copies)
}

impl<V: Copied + Drop> BytesMap<V> {
    /// An equal map of its own.
    pub(crate) fn copy(&self, alloc: Global) -> Result<BytesMap<V>, Memory>
        ensures { IfOk result (λ copy. copy ≡ self.now) }
    {
        let entries = copy_entries(alloc, self.entries.as_slice())?;
        Ok(BytesMap { entries })
    }
}

impl BytesMap<Blob> {
    /// Writes a part over the bytes under the key, from `start` on; it takes no memory.
    pub(crate) fn overwrite(&mut self, key: &[u8], start: u64, part: &[u8]) -> bool
        ensures { Overwrites self.old self.new key.now start part.now (map.get self.old key.now) result }
    {
        match place(self.entries.as_slice(), key) {
            Ok(i) => write_part(&mut self.entries[i].1, start, part),
            Err(_) => false,
        }
    }
}
