//! Texts that own their bytes, lists that own their items, and maps from texts.
ghost use Rattle.std.specs.{Prelude.{◌≡◌, IfOk, string_bytes, ◌==◌, ◌<◌, ◌++◌, ◌∷◌, [], OnOk, OnErr, length, take, swap, slice_get, slice_set, slice_index_or, ◌↔◌, Bool, IsTrue, map as each, unwrap_or}, Borrow.{Lends, sem}, Fn.{ComputesKey}};
ghost use Rattle.std.specs.{List.{remove, list_all}, List.Sorted.{IsPermutation}, Option.{option_copied}, Map.Iter.{ShowsInOrder, deref}};
ghost use Rattle.std.specs.FinMap as map;
ghost use Rattle.basics.specs.{Bytes.{are_same_bytes, same_bytes_partial_equivalence, same_bytes_equivalence}, Sorted.{stable_sort, by_key}, Keyed.{keyed, EachPasses}};

use std::alloc::{AllocError, Global};
use std::collections::HashMap;
use std::collections::hash_map::Values;
use std::marker::Model;
use std::ops::{Index, IndexMut};

/// A text that owns its bytes. Contracts see the bytes, and two texts are equal where these are.
#[derive(Debug, Drop)]
pub struct Text {
    string: String,
}

impl Model for Text {
    ghost use Rattle.std.specs.Prelude.{ℕ, List, string_bytes};

    ghost Value = { List ℕ };

    ghost view = { λ text. string_bytes text.string };
}

impl Text {
    /// A copy of the text.
    ///
    /// # Errors
    ///
    /// Want of memory alone.
    pub fn new(alloc: Global, text: &str) -> Result<Text, AllocError>
        ensures { IfOk result (λ copy. copy ≡ text.now) }
    {
        Ok(Text {
            string: String::from_str(alloc, text)?,
        })
    }

    /// The text of that string.
    pub fn from_string(string: String) -> Text
        ensures { result ≡ string_bytes string }
    {
        Text { string }
    }

    /// The string of this text.
    pub fn into_string(self) -> String
        ensures { string_bytes result ≡ self }
    {
        self.string
    }

    /// The text, borrowed.
    pub fn as_str(&self) -> &str
        ensures { result.now ≡ self.now }
    {
        self.string.as_str()
    }
}

impl PartialEq for Text {
    ghost eq = { are_same_bytes };

    ghost laws = { same_bytes_partial_equivalence };

    fn eq(&self, other: &Self) -> bool {
        self.string == other.string
    }
}

impl Eq for Text {
    ghost laws = { same_bytes_equivalence };
}

/// A list that owns its items. Contracts see the items in order.
#[derive(Debug, Drop)]
pub struct Items<T> {
    vec: Vec<T>,
}

impl<T> Model for Items<T> {
    ghost use Rattle.std.specs.{Prelude.{List}, Coded.{coded_list}};

    ghost Value = { List T };

    ghost coded = { coded_list T.code };

    ghost view = { λ list. list.vec.items };
}

impl<T> Items<T> {
    /// A list of nothing. It takes no memory.
    pub fn new(alloc: Global) -> Items<T>
        ensures { result ≡ [] }
    {
        Items {
            vec: Vec::new(alloc),
        }
    }

    /// The list of what the vector holds.
    pub fn from_vec(vec: Vec<T>) -> Items<T>
        ensures { result ≡ vec.items }
    {
        Items { vec }
    }

    /// The vector of this list.
    pub fn into_vec(self) -> Vec<T>
        ensures { result.items ≡ self }
    {
        self.vec
    }

    /// The items, borrowed.
    pub fn as_slice(&self) -> &[T]
        ensures { result.now ≡ self.now }
    {
        self.vec.as_slice()
    }

    /// Puts an item at the end.
    ///
    /// # Errors
    ///
    /// Want of memory alone. Nothing is added then.
    pub fn push(&mut self, item: T) -> Result<(), AllocError>
    where
        T: Drop,
        ensures ok { OnOk result (self.new ≡ self.old ++ item ∷ []) }
        ensures err { OnErr result (self.new ≡ self.old) }
    {
        self.vec.push(item)?;
        Ok(())
    }

    /// How many items there are.
    pub fn len(&self) -> usize
        ensures { result ≡ length self.now }
    {
        self.vec.as_slice().len()
    }

    /// Whether there is no item.
    pub fn is_empty(&self) -> bool
        ensures { result ≡ (length self.now == 0) }
    {
        self.vec.as_slice().is_empty()
    }

    /// The item at a place, which counts from 0, or none past the end.
    pub fn get(&self, place: usize) -> Option<&T>
        ensures { option_copied result ≡ slice_get self.now place }
    {
        self.vec.as_slice().get(place)
    }

    /// Puts an item at a place, which counts from 0 and lies within, and gives back the one that was there.
    pub fn replace(&mut self, place: usize, item: T) -> T
        requires within { place < length self.old }
        ensures before { result ≡ slice_index_or self.old place result }
        ensures after { self.new ≡ slice_set self.old place item }
    {
        std::mem::replace(&mut self.vec[place], item)
    }

    /// Puts two items each in the other's place. Places count from 0 and lie within.
    pub fn swap(&mut self, one: usize, other: usize)
        requires one { one < length self.old }
        requires other { other < length self.old }
        ensures { self.new ≡ swap self.old one other }
    {
        self.vec.swap(one, other);
    }

    /// Takes out the item at a place, which counts from 0 and lies within; those behind it move up by one.
    pub fn remove(&mut self, place: usize) -> T
        requires within { place < length self.old }
        ensures before { result ≡ slice_index_or self.old place result }
        ensures after { self.new ≡ remove self.old place }
    {
        self.vec.remove(place)
    }

    /// Keeps the first `count` items. A longer count keeps all.
    pub fn truncate(&mut self, count: usize)
    where
        T: Drop,
        ensures { self.new ≡ take count self.old }
    {
        self.vec.truncate(count);
    }

    /// Sorts by what the closure answers of each item; items with equal answers keep their order. The closure has to
    /// answer by the item alone.
    ///
    /// # Errors
    ///
    /// Want of memory alone. Nothing moves then.
    pub fn sort_by_key<K: Ord, F: FnMut(&T) -> K>(&mut self, key_of: F) -> Result<(), AllocError>
    where
        K: Drop,
        requires { F.IsAlwaysCallable key_of }
        ensures ok { (key : T → K) → ComputesKey F.FnMut key key_of → OnOk result (self.new ≡ stable_sort (by_key K.cmp key) self.old) }
        ensures err { OnErr result (self.new ≡ self.old) }
        ensures same_items { IsPermutation self.old self.new }
    {
        self.vec.sort_by_key(key_of)?;
        Ok(())
    }
}

impl<T> Index<usize> for Items<T> {
    type Output = T;

    ghost can_index = { λ items place. place < length items };

    ghost index_gives = { λ items place item. item ≡ slice_index_or items place item };

    fn index(&self, place: usize) -> &T
        requires within { place < length self.now }
        ensures { result.now ≡ slice_index_or self.now place result.now }
    {
        &self.vec.as_slice()[place]
    }
}

impl<T> IndexMut<usize> for Items<T> {
    ghost use Rattle.basics.specs.contracts.map.Items.{the_row};

    fn index_mut(&mut self, place: usize) -> &mut T
        requires within { place < length self.old }
        ensures* writes_back { sem 𝓛 (Lends (the_row T.row) T.row self.entry result (slice_set self.old place)) }
        ensures value { result.now ≡ slice_index_or self.old place result.now }
    {
        &mut self.vec[place]
    }
}

impl<T: PartialEq> PartialEq for Items<T> {
    ghost use Rattle.std.specs.Cmp.Lexicographic.{pointwise, lists_per};

    ghost eq = { pointwise T.eq };

    ghost laws = { lists_per T.PartialEq.laws };

    fn eq(&self, other: &Self) -> bool {
        self.vec == other.vec
    }
}

impl<T: Eq> Eq for Items<T> {
    ghost use Rattle.std.specs.Cmp.Lexicographic.{lists_equiv};

    ghost laws = { lists_equiv T.Eq.laws };
}

/// A hashed map from texts that owns its keys and its values. Contracts see a finite map from the bytes of the keys.
#[derive(Drop)]
pub struct TextMap<V> {
    hashed: HashMap<String, V>,
}

impl<V> Model for TextMap<V> {
    ghost use Rattle.std.specs.Coded.{coded_ℕ, coded_list};
    ghost use Rattle.std.specs.FinMap as map;
    ghost use Rattle.basics.specs.Keyed.{text_cmp, keyed};

    ghost Value = { map.FinMap text_cmp V };

    ghost coded = { map.code (coded_list coded_ℕ) V.code };

    ghost view = { λ texts. keyed texts.hashed.entries };
}

impl<V> TextMap<V> {
    /// A map with no key. It takes no memory.
    pub fn new(alloc: Global) -> TextMap<V>
        ensures { result ≡ map.empty }
    {
        TextMap {
            hashed: HashMap::new(alloc),
        }
    }

    /// The map of what the hashed map holds.
    pub fn from_hash_map(hashed: HashMap<String, V>) -> TextMap<V>
        ensures { result ≡ keyed hashed.entries }
    {
        TextMap { hashed }
    }

    /// The hashed map of this map.
    pub fn into_hash_map(self) -> HashMap<String, V>
        ensures { keyed result.entries ≡ self }
    {
        self.hashed
    }

    /// The value at a key, or none where there is no such key.
    pub fn get(&self, key: &str) -> Option<&V>
        ensures { option_copied result ≡ map.get self.now key.now }
    {
        self.hashed.get(key)
    }

    /// Whether there is such a key.
    pub fn contains_key(&self, key: &str) -> bool
        ensures { result ≡ map.contains_key self.now key.now }
    {
        self.hashed.contains_key(key)
    }

    /// The keys in the order of their bytes, each once.
    ///
    /// # Errors
    ///
    /// Want of memory alone.
    pub fn keys(&self, alloc: Global) -> Result<Vec<&str>, AllocError>
        ensures { IfOk result (λ keys. each deref keys.items ≡ map.keys self.now) }
    {
        let mut keys = self.keys_in_any_order(alloc)?;
        keys.sort()?;
        Ok(keys)
    }

    /// The keys, each once, in an order that is left open.
    ///
    /// # Errors
    ///
    /// Want of memory alone.
    pub fn keys_in_any_order(&self, alloc: Global) -> Result<Vec<&str>, AllocError>
        ensures { IfOk result (λ keys. IsPermutation (map.keys self.now) (each deref keys.items)) }
    {
        let keys: Vec<&str> = self.hashed.keys().map(|key| key.as_str()).collect(alloc)?;
        Ok(keys)
    }

    /// The values, in an order that is left open. It takes no memory.
    pub fn values(&self) -> Values<'_, String, V>
        ensures each_once { IsPermutation (map.values self.now) result }
        ensures all { (test : V → Bool) → list_all test result ≡ list_all test (map.values self.now) }
        ensures passing { (test : V → Bool) → IsTrue (list_all test result) ↔ EachPasses test self.now }
        ensures runs { ShowsInOrder (deref {X = V}) }
    {
        self.hashed.values()
    }

    /// Puts a value at a key, in place of one that is there.
    ///
    /// # Errors
    ///
    /// Want of memory alone. Nothing changes then.
    pub fn insert(&mut self, alloc: Global, key: &str, value: V) -> Result<(), AllocError>
    where
        V: Drop,
        ensures ok { OnOk result (self.new ≡ map.insert self.old key.now value) }
        ensures err { OnErr result (self.new ≡ self.old) }
    {
        let key = String::from_str(alloc, key)?;
        self.hashed.insert(key, value)?;
        Ok(())
    }
}

impl<T: Drop> TextMap<Items<T>> {
    /// Puts an item at the end of the list at a key, which begins with it where there is no such key.
    ///
    /// # Errors
    ///
    /// Want of memory alone. Nothing changes then.
    pub fn append(&mut self, alloc: Global, key: &str, item: T) -> Result<(), AllocError>
        ensures ok { OnOk result (self.new ≡ map.insert self.old key.now (unwrap_or (map.get self.old key.now) [] ++ item ∷ [])) }
        ensures err { OnErr result (self.new ≡ self.old) }
    {
        match self.hashed.get_mut(key) {
            Some(items) => items.push(item),
            None => {
                let mut items = Items::new(alloc);
                items.push(item)?;
                let key = String::from_str(alloc, key)?;
                self.hashed.insert(key, items)?;
                Ok(())
            }
        }
    }
}
