//! Files whose logs over `Tiny`, by either engine, prove the answers of `solve`, and files whose
//! logs are given up.
use cert_check::check;
use deriv_log::{Family, Place};
use exact_field::{Field, Left, Op, is_zero};
use frac128::{Frac, Tiny};
use lp_form::Data;
use sol_writer::report;
use solver::{SolveEnd, dual_log_of, log_of, solve};
use src_sink::{Bytes, Items, NoMemory};
use std::alloc::Global;
use std::process::Abort;
use std::test::Fail;
use vlp_problem::{Problem, Program};
use vlp_reader::read_vlp;

/// Files that are given up over `Tiny`, and where.
const GIVEN_UP: [(&str, &str); 8] = [
    (
        "p vlp min 1 1 1 1 0\na 1 1 58\ni 1 l 0\nj 1 l 8\ne\n",
        "feasible",
    ),
    ("p vlp min 0 1 0 2 1\no 2 1 5\nj 1 s 61\ne\n", "benson"),
    (
        "p vlp min 0 1 0 1 0 dualcone 2 2\nk 1 1 -69\nk 1 2 -5\ne\n",
        "interior",
    ),
    (
        "p vlp min 0 1 0 1 0 dualcone 2 2\nk 1 1 10\nk 1 2 -93\ne\n",
        "pointed",
    ),
    (
        "p vlp min 0 1 0 2 0 cone 2 4\nk 1 1 -125\nk 2 1 -53\nk 1 2 2\nk 2 2 -1\ne\n",
        "elimination",
    ),
    (
        "p vlp min 0 1 0 1 0 dualcone 1 2\nk 1 1 3\nk 1 0 63\ne\n",
        "sum",
    ),
    (
        "p vlp min 1 2 2 3 5\na 1 1 3\na 1 2 3\no 1 1 2\no 1 2 -2\no 2 2 1\no 3 1 -7\no 3 2 2\ni 1 l 1\nj 1 u 0\nj 2 u 2\ne\n",
        "image",
    ),
    ("p vlp min 0 1 0 2 0\nk 1 0 0.01\nk 2 0 2\ne\n", "scale"),
];

/// Files whose logs over the facets are given up over `Tiny`, and where.
const GIVEN_UP_OVER_FACETS: [(&str, &str); 6] = [
    (
        "p vlp max 0 1 0 2 1\no 2 1 1\nj 1 l 20\nk 1 0 10\nk 2 0 1\ne\n",
        "exchange",
    ),
    (
        "p vlp min 0 1 0 3 0 dualcone 3 9\nk 1 1 1\nk 1 2 2\nk 2 2 1\nk 1 3 1\nk 2 3 10\nk 3 3 10\nk 1 0 1\nk 2 0 1\nk 3 0 1\ne\n",
        "elimination",
    ),
    (
        "p vlp max 0 1 0 2 1\no 1 1 1\nj 1 l 0.05\nk 1 0 10\nk 2 0 1\ne\n",
        "sum",
    ),
    (
        "p vlp max 0 2 0 3 4\no 1 1 3\no 2 2 -1\no 3 1 0.05\no 3 2 1\nj 2 l 0\ne\n",
        "exchanged",
    ),
    (
        "p vlp min 0 1 0 3 0 dualcone 4 9\nk 1 1 1\nk 3 1 5\nk 2 2 1\nk 1 3 1\nk 2 3 20\nk 1 4 5\nk 2 4 1\nk 2 0 1\nk 3 0 1\ne\n",
        "cone",
    ),
    (
        "p vlp min 0 1 0 2 2\no 1 1 -5\no 2 1 7\nj 1 l 10\ne\n",
        "elimination",
    ),
];

/// The problem of a text.
fn problem_of(alloc: Global, text: &str) -> Result<Problem, Fail> {
    let mut bytes = Items::new(alloc);
    bytes.append(text.as_bytes())?;
    Ok(read_vlp(alloc, bytes.as_slice())?)
}

/// The name of a place.
fn kind(place: &Place) -> &'static str {
    match place {
        Place::Pivot { program, .. } => match program {
            Program::Feasible => "feasible",
            Program::Benson { .. } => "benson",
            Program::Interior => "interior",
            Program::Pointed => "pointed",
            Program::Weight { .. } => "weight",
        },
        Place::Elim { row: 0, .. } => "sum",
        Place::Elim { .. } => "elimination",
        Place::Pair { family, .. } => match family {
            Family::Image => "image",
            Family::Exchanged => "exchanged",
            Family::ConeRows => "cone",
            Family::Rep => "another",
        },
        Place::Exchange { .. } => "exchange",
        Place::Scale { .. } => "scale",
        Place::Step { .. } => "another",
    }
}

/// Whether these are numbers of the field, and the operation has no result there.
fn overflows<F: Field>(left: &Left<Frac>) -> bool {
    let a = F::of(left.a.num(), left.a.den());
    let b = F::of(left.b.num(), left.b.den());
    match (a, b) {
        (Some(a), Some(b)) => match left.op {
            Op::Add => a.add(b).is_err(),
            Op::Sub => a.sub(b).is_err(),
            Op::Mul => a.mul(b).is_err(),
            Op::Div => !is_zero(b) && a.div(b).is_err(),
        },
        _ => false,
    }
}

/// The report of the answer that `solve` has.
fn report_of(alloc: Global, problem: &Problem) -> Result<Bytes, Fail> {
    let solution = solve(alloc, problem)?;
    Ok(report(alloc, problem, &solution.answer)?)
}

/// Where the log of a file over `Tiny`, that of `solve` or the one over the facets, is given up, at
/// operands that overflow there; none where the log proves the answer that `solve` has.
fn find_overflow(
    rt: &impl Abort,
    alloc: Global,
    text: &str,
    by_facets: bool,
) -> Result<Option<&'static str>, Fail> {
    let problem = problem_of(alloc, text)?;
    let form = Data::<Tiny>::of(alloc, &problem)?;
    let made = if by_facets {
        dual_log_of(alloc, &problem, &form)
    } else {
        log_of(alloc, &problem, &form)
    };
    match made {
        Ok(log) => {
            let answer = check(alloc, &problem, &log)?;
            let told = report(alloc, &problem, &answer)?;
            assert!(rt; told.as_slice() == report_of(alloc, &problem)?.as_slice());
            Ok(None)
        }
        Err(SolveEnd::Left(licence)) => {
            assert!(rt; overflows::<Tiny>(&licence.left));
            Ok(Some(kind(&licence.place)))
        }
        Err(SolveEnd::Cone(fault)) => panic!(rt; "{fault:?}"),
        Err(SolveEnd::NoMemory) => Err(NoMemory.into()),
    }
}

#[test]
fn bounds_that_are_too_wide_are_told(rt: HostRuntime) -> Result<(), Fail> {
    for by_facets in [false, true] {
        let mut proved = false;
        let mut given_up = false;
        for b in 1..128 {
            let text = format!(in rt.alloc();
                "p vlp min 2 2 4 2 4\na 1 1 2\na 1 2 1\na 2 1 1\na 2 2 2\no 1 1 1\no 1 2 -1\no 2 1 1\no 2 2 1\ni 1 l {b}\ni 2 l {b}\nj 1 l 0\nj 2 l 0\ne\n"
            )?;
            match find_overflow(&rt, rt.alloc(), text.as_str(), by_facets)? {
                None => proved = true,
                Some(_) => given_up = true,
            }
        }
        assert!(rt; proved && given_up);
    }
    Ok(())
}

#[test]
fn each_kind_of_overflow_is_met(rt: HostRuntime) -> Result<(), Fail> {
    let alloc = rt.alloc();
    for (text, kind) in GIVEN_UP {
        assert_eq!(rt;
            find_overflow(&rt, alloc, text, false)?,
            Some(kind),
            "of {text:?}"
        );
    }
    for (text, kind) in GIVEN_UP_OVER_FACETS {
        assert_eq!(rt;
            find_overflow(&rt, alloc, text, true)?,
            Some(kind),
            "of {text:?}"
        );
    }
    Ok(())
}
