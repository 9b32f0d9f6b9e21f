//! Looking up a key, and removing one.

ghost use Rattle.std.specs.Prelude.{◌≡◌, ◌<◌, IfSome, Some, length, option_copied};
ghost use Rattle.rbc_maps.specs.Maps.{IsMap, has, index_for, value_of, without};

use std::cell::Cell;

/// The index of a key, or the index at which it would be inserted. The keys ascend.
pub fn index_for<V>(pairs: &[(u32, V)], key: u32) -> usize
    requires { IsMap pairs.now }
    ensures { result ≡ index_for key pairs.now }
{
    pairs.partition_point(|pair| pair.0 < key)
}

/// The same as `index_for`, found at once if `near` is the index of the key. The keys ascend.
pub fn index_near<V>(pairs: &[(u32, V)], key: u32, near: usize) -> usize
    requires { IsMap pairs.now }
    ensures { result ≡ index_for key pairs.now }
{
    if near < pairs.len() && pairs[near].0 == key {
        near
    } else {
        index_for(pairs, key)
    }
}

/// Whether the map has a value at a key.
pub fn has<V>(pairs: &[(u32, V)], key: u32) -> bool
    requires { IsMap pairs.now }
    ensures { result ≡ has pairs.now key }
{
    let at = index_for(pairs, key);
    at < pairs.len() && pairs[at].0 == key
}

/// The value at a key, if the map has one.
pub fn value_of<V>(pairs: &[(u32, V)], key: u32) -> Option<&V>
    requires { IsMap pairs.now }
    ensures { option_copied result ≡ value_of pairs.now key }
{
    let at = index_for(pairs, key);
    if at < pairs.len() && pairs[at].0 == key {
        Some(&pairs[at].1)
    } else {
        None
    }
}

/// The value at a key, if it stands at this index.
#[inline]
pub fn value_at<V>(pairs: &[(u32, V)], key: u32, index: usize) -> Option<&V>
    requires { IsMap pairs.now }
    ensures value { IfSome (option_copied result) (λ value. value_of pairs.now key ≡ Some value) }
    ensures within { IfSome result (λ _. index < length pairs.now) }
{
    if index < pairs.len() && pairs[index].0 == key {
        Some(&pairs[index].1)
    } else {
        None
    }
}

/// The value at a key, if the map has one.
///
/// The index `hint` is tried first, then all. If the key is found, `near` is set to the index after it. The answer is
/// the same whatever the hint is.
pub fn value_near<'a, V>(
    pairs: &'a [(u32, V)],
    key: u32,
    near: &Cell<usize>,
    hint: usize,
) -> Option<&'a V>
    requires { IsMap pairs.now }
    ensures { option_copied result ≡ value_of pairs.now key }
{
    let found = index_near(pairs, key, hint);
    if found < pairs.len() && pairs[found].0 == key {
        near.set(found + 1);
        Some(&pairs[found].1)
    } else {
        None
    }
}

/// Removes a key and its value. Returns whether the key was there.
pub fn remove<V: Drop>(pairs: &mut Vec<(u32, V)>, key: u32) -> bool
    requires { IsMap pairs.old.items }
    ensures pairs { pairs.new.items ≡ without key pairs.old.items }
    ensures found { result ≡ has pairs.old.items key }
{
    let found = has(pairs, key);
    if found {
        let at = index_for(pairs, key);
        let _ = pairs.remove(at);
    }
    found
}
