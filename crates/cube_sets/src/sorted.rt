//! Sorted lists of distinct values: made, searched and merged.
ghost use Rattle.std.specs.Prelude.{◌≡◌, ◌≤◌, vec_len, Bool, true, length, IfOk, IfSome, IfNone, ◌<◌, drop, ◌+◌, ◌^◌};
ghost use Rattle.std.specs.List.{list_all};
ghost use Rattle.std.specs.List.Sorted.{IsStrictlySortedBy};
ghost use Rattle.cube_sets.specs.Sorted.{has, union_of, intersection_of};

use std::alloc::{AllocError, Global};
use std::cmp::Ordering;

/// Sorts the values, and keeps one of those that are equal.
pub fn sort_distinct<T: Ord + Drop>(values: &mut Vec<T>)
    ensures sorted { IsStrictlySortedBy T.cmp values.new.items }
    ensures members { (x : T) → has T.cmp values.new.items x ≡ has T.cmp values.old.items x }
    ensures kept { (p : T → Bool)
        → list_all p values.old.items ≡ true → list_all p values.new.items ≡ true }
    ensures bound { vec_len values.new ≤ vec_len values.old }
{
    values.sort_unstable();
    values.dedup();
}

/// Whether a sorted list has the value.
pub(crate) fn contains<T: Ord>(values: &[T], value: &T) -> bool
    requires { IsStrictlySortedBy T.cmp values.now }
    ensures { result ≡ has T.cmp values.now value.now }
{
    values.binary_search(value).is_ok()
}

// What is left of the two lists, one of which is at its end.
fn rest_of<'a, T>(left: &'a [T], i: usize, right: &'a [T], j: usize) -> &'a [T]
    requires left { i ≤ length left.now }
    requires right { j ≤ length right.now }
    ensures left { i < length left.now → result.now ≡ drop i left.now }
    ensures right { length left.now ≤ i → result.now ≡ drop j right.now }
{
    if i < left.len() {
        &left[i..]
    } else {
        &right[j..]
    }
}

/// The values of both sorted lists, or nothing where there are more than so many.
pub(crate) fn union<T: Ord + Copy>(
    alloc: Global,
    left: &[T],
    right: &[T],
    limit: usize,
) -> Result<Option<Vec<T>>, AllocError>
    requires left { IsStrictlySortedBy T.cmp left.now }
    requires right { IsStrictlySortedBy T.cmp right.now }
    ensures all { IfOk result (λ all. IfSome all (λ all.
        (all.items ≡ union_of T.cmp left.now right.now) × (vec_len all ≤ limit))) }
    ensures more { IfOk result (λ all. IfNone all
        (limit < length (union_of T.cmp left.now right.now))) }
{
    let mut all = Vec::with_capacity(alloc, limit.min(left.len().saturating_add(right.len())))?;
    let mut i = 0;
    let mut j = 0;
    'merge: while i < left.len() && j < right.len() {
        if all.len() == limit {
            return Ok(None);
        }
        let x = left[i];
        let y = right[j];
        match x.cmp(&y) {
            Ordering::Less => {
                all.push(x)?;
                i += 1;
            }
            Ordering::Equal => {
                all.push(y)?;
                i += 1;
                j += 1;
            }
            Ordering::Greater => {
                all.push(y)?;
                j += 1;
            }
        }
    }
    let rest = rest_of(left, i, right, j);
    if limit - all.len() < rest.len() {
        return Ok(None);
    }
    all.extend_from_slice(rest)?;
    Ok(Some(all))
}

/// The values of both sorted lists.
pub(crate) fn union_of_all<T: Ord + Copy>(
    alloc: Global,
    left: &[T],
    right: &[T],
) -> Result<Vec<T>, AllocError>
    requires left { IsStrictlySortedBy T.cmp left.now }
    requires right { IsStrictlySortedBy T.cmp right.now }
    requires few { length left.now + length right.now < 2 ^ 32 }
    ensures { IfOk result (λ all. all.items ≡ union_of T.cmp left.now right.now) }
{
    let all = union(alloc, left, right, left.len() + right.len())?;
    Ok(all.unwrap())
}

/// The values that both sorted lists have.
pub(crate) fn intersection<T: Ord + Copy>(
    alloc: Global,
    left: &[T],
    right: &[T],
) -> Result<Vec<T>, AllocError>
    requires left { IsStrictlySortedBy T.cmp left.now }
    requires right { IsStrictlySortedBy T.cmp right.now }
    ensures { IfOk result (λ both. both.items ≡ intersection_of T.cmp left.now right.now) }
{
    let mut both = Vec::new(alloc);
    let mut i = 0;
    let mut j = 0;
    'merge: while i < left.len() && j < right.len() {
        let x = left[i];
        match x.cmp(&right[j]) {
            Ordering::Less => i += 1,
            Ordering::Equal => {
                both.push(x)?;
                i += 1;
                j += 1;
            }
            Ordering::Greater => j += 1,
        }
    }
    Ok(both)
}
