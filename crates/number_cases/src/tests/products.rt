//! Products of vectors in the short way.

use exact_field::Field;
use frac128::{Frac, Tiny};
use src_sink::Items;
use std::alloc::Global;
use tier_frac::Tier;

/// Each line: two vectors and their product by Python's `fractions`, or `none` where the short way
/// gives no answer.
const ROWS: &str = "\
;;0/1
1/1;1/1;1/1
1/2 1/3 1/5;1/1 1/1 1/1;31/30
1/6 1/3;1/1 1/1;1/2
1/3 -1/3;1/1 1/1;0/1
5/7 3/7 -2/7;1/1 2/1 3/1;5/7
-7/4 5/6;3/2 -1/9;-587/216
3/8 -9/10 1/12 -5/14;-2/3 7/9 11/5 4/15;-181/210
0/1 1/2 5/3;1329227995784915872903807060280344575/1 3/1 0/1;3/2
1073741823/1 1073741823/1;1073741823/1 1073741822/1;2305843003844984835/1
1073741824/1;1/1;none
1/1;-1073741824/1;none
1/1073741824;1/1;none
1/1;1/1073741824;none
1/1073741789 1/1073741783;1/1 1/1;2147483572/1152921423002469787
1/1073741789 1/1073741783 1/2;1/1 1/1 1/1;none
1/1073741789 1/1073741783 1/1073741741;1/1 1/1 1/1;none
1/1073741789 536870912/1;1/1073741783 536870912/1;332306975425368635414316319693078529/1152921423002469787
1/1073741789 1073741823/1;1/1073741783 1073741823/1;none
1073741823/1 1/2;1073741823/1 1/1;none
";

const COUNT: usize = 20;

fn number<F: Field>(text: &str) -> Option<F> {
    let (num, den) = text.split_once('/')?;
    F::of(num.parse().ok()?, den.parse().ok()?)
}

fn vector<F: Field>(alloc: Global, text: &str) -> Option<Items<F>> {
    let mut entries = Items::new(alloc);
    for word in text.split_ascii_whitespace() {
        entries.push(number(word)?).ok()?;
    }
    Some(entries)
}

fn product<F: Field>(row: &[F], vector: &[F]) -> Option<F> {
    if row.len() == vector.len() {
        F::short_dot(row, vector)
    } else {
        None
    }
}

/// Whether the vectors of the line have one width and its answer.
fn agrees<F: Field>(alloc: Global, line: &str) -> Option<bool> {
    let mut parts = line.split(';');
    let left = vector::<F>(alloc, parts.next()?)?;
    let right = vector::<F>(alloc, parts.next()?)?;
    let answer = product(left.as_slice(), right.as_slice());
    Some(left.len() == right.len() && answer == number(parts.next()?))
}

#[test]
fn short_products_are_exact_or_none(rt: HostRuntime) {
    assert_eq!(rt; ROWS.lines().count(), COUNT);
    for line in ROWS.lines() {
        assert!(rt; agrees::<Frac>(rt.alloc(), line) == Some(true), "{line}");
        assert!(rt; agrees::<Tier>(rt.alloc(), line) == Some(true), "{line}");
    }
    assert!(rt; Tiny::short_dot(&[Tiny::one()], &[Tiny::one()]).is_none());
}
