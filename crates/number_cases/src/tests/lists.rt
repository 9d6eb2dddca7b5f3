//! Calls that take memory, with memory enough: lists, sets of numbers, and the canonical text of
//! fractions.

use frac128::{Frac, put_frac};
use incid_sets::Marks;
use src_sink::{Bytes, Items, NoMemory};
use std::alloc::Global;
use std::process::Abort;
use std::test::Fail;

/// Numbers with their texts, each after a blank.
fn text_of(alloc: Global, numbers: &[Frac]) -> Result<Bytes, NoMemory> {
    let mut text = Bytes::with_room(alloc, 2)?;
    for x in numbers {
        text.push(b' ')?;
        put_frac(*x, &mut text)?;
    }
    Ok(text)
}

#[test]
fn numbers_have_their_canonical_text(rt: HostRuntime) -> Result<(), Fail> {
    let greatest = Frac::new((1 << 120) - 1, (1 << 120) - 2)?;
    let text = text_of(rt.alloc(), &[Frac::new(4, -8)?, Frac::from(0), greatest])?;
    let expected =
        b" -1/2 0 1329227995784915872903807060280344575/1329227995784915872903807060280344574";
    assert_eq!(rt; text.as_slice(), expected.as_slice());
    Ok(())
}

/// A set below a bound with some numbers.
fn marks(rt: &impl Abort, alloc: Global, bound: u32, numbers: &[u32]) -> Result<Marks, NoMemory> {
    let mut set = Marks::new(alloc, bound)?;
    for k in numbers {
        assert!(rt; *k < set.bound());
        set.insert(*k);
    }
    Ok(set)
}

/// Whether these are the numbers of a set.
fn are_in(set: &Marks, numbers: &[u32]) -> bool {
    (0..set.bound()).all(|k| set.has(k) == numbers.contains(&k))
}

#[test]
fn sets_meet_and_grow(rt: HostRuntime) -> Result<(), Fail> {
    let a = marks(&rt, rt.alloc(), 3, &[0, 2])?;
    let b = marks(&rt, rt.alloc(), 3, &[1, 2])?;
    assert!(rt; a.bound() == b.bound());
    let mut common = Marks::meet(rt.alloc(), &a, &b)?;
    assert!(rt; are_in(&common, &[2]));
    common.grow(130)?;
    assert!(rt; common.bound() == 130 && are_in(&common, &[2]));
    common.insert(129);
    assert!(rt; are_in(&common, &[2, 129]));
    Ok(())
}

#[test]
fn lists_take_memory(rt: HostRuntime) -> Result<(), Fail> {
    let mut places: Items<u32> = Items::new(rt.alloc());
    places.append(&[7, 5, 6])?;
    let mut list = places.into_vec();
    list.sort()?;
    let sorted = Items::from_vec(list);
    assert_eq!(rt; sorted.as_slice(), [5, 6, 7].as_slice());
    Ok(())
}
