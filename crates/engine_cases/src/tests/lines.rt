//! Lines and texts of what no small run has: an overflow at each kind of place, and a number that
//! no file has.

use commands::licence_line;
use deriv_log::{Family, Licence, Place};
use exact_field::{Left, Op};
use frac128::Frac;
use src_sink::{Items, NoMemory};
use std::alloc::Global;
use std::test::Fail;
use vlp_printer::{PrintFault, print_vlp};
use vlp_problem::{Bound, Cone, Dir, Problem, Program};

/// Operations at the places that `place` makes, and their lines.
const PLACE_LINES: [(Op, &str); 8] = [
    (Op::Div, "fault 5 pivot 1 2 3 div -7/2 3 2 4 1\n"),
    (Op::Mul, "fault 5 elim 0 2 1 mul -7/2 3 0\n"),
    (Op::Add, "fault 5 pair image 1 2 9 add -7/2 3\n"),
    (
        Op::Sub,
        "fault 5 pair exchanged 1 2 4294967296 sub -7/2 3\n",
    ),
    (Op::Add, "fault 5 pair cone 1 2 1 add -7/2 3\n"),
    (Op::Mul, "fault 5 exchange 2 mul -7/2 3\n"),
    (Op::Div, "fault 5 scale 2 div -7/2 3\n"),
    (Op::Sub, "fault 5 step 4 11 sub -7/2 3\n"),
];

fn pair(alloc: Global, family: Family, step: u64) -> Place {
    Place::Pair {
        family,
        rows: Items::new(alloc),
        first: 1,
        second: 2,
        step,
    }
}

fn pivot(alloc: Global) -> Result<Place, NoMemory> {
    let mut basis = Items::new(alloc);
    basis.append(&[4, 1])?;
    Ok(Place::Pivot {
        program: Program::Feasible,
        basis,
        row: 1,
        col: 2,
        step: 3,
    })
}

fn place(alloc: Global, number: usize) -> Result<Place, NoMemory> {
    match number {
        0 => pivot(alloc),
        1 => Ok(Place::Elim {
            rows: Items::new(alloc),
            basis: Items::new(alloc),
            row: 0,
            col: 2,
            step: 1,
        }),
        2 => Ok(pair(alloc, Family::Image, 9)),
        3 => Ok(pair(alloc, Family::Exchanged, 4_294_967_296)),
        4 => Ok(pair(alloc, Family::ConeRows, 1)),
        5 => Ok(Place::Exchange {
            y: Items::new(alloc),
            t: true,
            step: 2,
        }),
        6 => Ok(Place::Scale {
            vector: Items::new(alloc),
            entry: 2,
        }),
        _ => Ok(Place::Step { entry: 4, step: 11 }),
    }
}

#[test]
fn each_place_has_its_line(rt: HostRuntime) -> Result<(), Fail> {
    let (a, b) = (Frac::new(-7, 2)?, Frac::from(3));
    for (number, (op, line)) in PLACE_LINES.iter().enumerate() {
        let licence = Licence {
            place: place(rt.alloc(), number)?,
            left: Left { op: *op, a, b },
            trail: Items::new(rt.alloc()),
        };
        let text = licence_line(rt.alloc(), &licence)?;
        assert_eq!(rt; text.as_slice(), line.as_bytes());
    }
    Ok(())
}

/// A problem of one column between 1 and this number.
fn problem_below(alloc: Global, number: Frac) -> Result<Problem, Fail> {
    Ok(Problem {
        dir: Dir::Min,
        rows: 0,
        cols: 1,
        objs: 1,
        a: Items::new(alloc),
        o: Items::new(alloc),
        row_bounds: Items::new(alloc),
        col_bounds: Items::from_vec(vec![in alloc; Bound::Double(Frac::from(1), number)]?),
        cone: Cone::Orthant,
        duality: None,
    })
}

#[test]
fn a_third_is_not_printed(rt: HostRuntime) -> Result<(), Fail> {
    let third = Frac::new(1, 3)?;
    let fault = print_vlp(rt.alloc(), &problem_below(rt.alloc(), third)?).err();
    assert_eq!(rt; fault, Some(PrintFault::NotDecimal(third)));
    Ok(())
}
