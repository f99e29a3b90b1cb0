ghost use Rattle.std.specs.Prelude.{◌≡◌, ◌<◌, option_map, slice_get, Some};
ghost use Rattle.std.specs.FinMap as map;

use crate::ledger::Ledger;
use puya_base::Value;

// The entries of each map by their place, in byte order of the keys; none of these takes memory.
impl Ledger {
    /// How many global values there are.
    pub fn global_count(&self) -> usize
        ensures { result ≡ map.len self.now.global }
    {
        self.global.len()
    }

    /// The key of the global value at a place below the count.
    pub fn global_key(&self, i: usize) -> &[u8]
        requires { i < map.len self.now.global }
        ensures { option_map (λ e. e.0) (slice_get (map.entries self.now.global) i) ≡ Some result.now }
    {
        self.global.key_at(i)
    }

    /// The global value at a place below the count.
    pub fn global_value(&self, i: usize) -> &Value
        requires { i < map.len self.now.global }
        ensures { option_map (λ e. e.1) (slice_get (map.entries self.now.global) i) ≡ Some result.now }
    {
        self.global.value_at(i)
    }

    /// How many local values there are, of all accounts.
    pub fn local_count(&self) -> usize
        ensures { result ≡ map.len self.now.local }
    {
        self.local.len()
    }

    /// The account of the local value at a place below the count, by account and then by key.
    pub fn local_account(&self, i: usize) -> &[u8]
        requires { i < map.len self.now.local }
        ensures { option_map (λ e. e.0.0) (slice_get (map.entries self.now.local) i) ≡ Some result.now }
    {
        self.local.account_at(i)
    }

    /// The key of the local value at a place below the count.
    pub fn local_key(&self, i: usize) -> &[u8]
        requires { i < map.len self.now.local }
        ensures { option_map (λ e. e.0.1) (slice_get (map.entries self.now.local) i) ≡ Some result.now }
    {
        self.local.key_at(i)
    }

    /// The local value at a place below the count.
    pub fn local_value(&self, i: usize) -> &Value
        requires { i < map.len self.now.local }
        ensures { option_map (λ e. e.1) (slice_get (map.entries self.now.local) i) ≡ Some result.now }
    {
        self.local.value_at(i)
    }

    /// How many boxes there are.
    pub fn box_count(&self) -> usize
        ensures { result ≡ map.len self.now.boxes }
    {
        self.boxes.len()
    }

    /// The name of the box at a place below the count.
    pub fn box_name(&self, i: usize) -> &[u8]
        requires { i < map.len self.now.boxes }
        ensures { option_map (λ e. e.0) (slice_get (map.entries self.now.boxes) i) ≡ Some result.now }
    {
        self.boxes.key_at(i)
    }

    /// The bytes of the box at a place below the count.
    pub fn box_bytes(&self, i: usize) -> &[u8]
        requires { i < map.len self.now.boxes }
        ensures { option_map (λ e. e.1) (slice_get (map.entries self.now.boxes) i) ≡ Some result.now }
    {
        let bytes = self.boxes.value_at(i);
        bytes.as_slice()
    }
}
