//! The data of problems in a field: the first number that it does not hold.

use exact_field::Field;
use frac128::{Frac, Tiny};
use lp_form::{Data, DataFault};
use std::alloc::Global;
use vlp_reader::read_vlp;

/// Files, and the number of each that `Tiny` does not hold first, or 0.
const FILES: [(&str, i64); 5] = [
    (
        "p vlp min 1 1 1 1 1\na 1 1 1\no 1 1 1\ni 1 u 0\nj 1 l 1\ne\n",
        0,
    ),
    (
        "p vlp min 1 1 1 1 1\na 1 1 1\no 1 1 1\ni 1 u 200\nj 1 l 300\n",
        200,
    ),
    ("p vlp max 1 1 1 1 1\na 1 1 1\no 1 1 300\ni 1 u 200\n", 300),
    (
        "p vlp min 0 1 0 1 1 cone 1 1\no 1 1 1\nk 1 1 200\nk 1 0 -128\nj 1 l 300\n",
        -128,
    ),
    (
        "p vlp min 0 1 0 1 1 dualcone 1 1\no 1 1 127\nk 1 1 200\nj 1 d 300 400\n",
        200,
    ),
];

/// Why a file has no data in a field, where it has none.
fn fault<F: Field>(alloc: Global, text: &str) -> Option<Option<DataFault>> {
    if text.len() > 1000 {
        return None;
    }
    let problem = read_vlp(alloc, text.as_bytes()).ok()?;
    Some(Data::<F>::of(alloc, &problem).err())
}

/// The fault that names a number.
fn fault_of(number: i64) -> Option<DataFault> {
    if number == 0 {
        return None;
    }
    Some(DataFault::NotHeld(Frac::from(number)))
}

#[test]
fn the_first_number_that_is_not_held_is_told(rt: HostRuntime) {
    for (text, number) in &FILES {
        assert_eq!(rt; fault::<Tiny>(rt.alloc(), text), Some(fault_of(*number)));
        assert_eq!(rt; fault::<Frac>(rt.alloc(), text), Some(None));
    }
}
