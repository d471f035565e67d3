// What posting is refused for.
use crate::faults::{Fault, RECORDS, Row, faulty, refusal_under};
use crate::fixture::{Call, Fixture};
use crate::stages::{STAGES, Stage, line_at, two_carriers};
use bounds::{Bound, MarkedBound, PlainBound};
use std::alloc::Global;
use std::process::Abort;
use std::test::Fail;

// The initial token stands in place 0 and is 2 old. It satisfies no zone with a token in another
// place, of more tokens, or without any age, so 26 comes together with 20, 21 and 24 alone.
const COVERED: [Row; 6] = [
    ([Fault::Covered, Fault::Fine], 26, 26),
    ([Fault::Short, Fault::Covered], 20, 20),
    ([Fault::FirstSpare, Fault::Covered], 21, 21),
    ([Fault::AbsentBound, Fault::Covered], 21, 21),
    // an age above 1
    ([Fault::Strict, Fault::Covered], 24, 26),
    // nothing is wrong: one that is taken while listing
    ([Fault::Fine, Fault::Fine], 0, 0),
];

// What is answered at a stage where a listing docket answers this, and where it answers 41.
fn at_stage(stage: Stage, number: u8) -> (u8, u8) {
    match stage {
        Stage::Listing => (number, 41),
        Stage::Full => (42, 41),
        Stage::Blank | Stage::Proving | Stage::Sealed => (40, 40),
    }
}

fn check_row<B: Bound + PartialEq>(
    rt: &impl Abort,
    line: &mut Fixture<'_, B>,
    stage: Stage,
    row: Row,
) -> Result<(), Fail> {
    let zone = faulty(line.heap, row.0)?;
    let (refusal, not_whole) = at_stage(stage, refusal_under::<B>(row));
    line.refuses_each(rt, Call::Post(&zone), refusal, not_whole)
}

fn check_stages<B: Bound + PartialEq>(rt: &impl Abort, heap: Global) -> Result<(), Fail> {
    let bytes = two_carriers(heap)?;
    for stage in STAGES {
        let mut line: Fixture<'_, B> = line_at(rt, heap, &bytes, stage)?;
        for row in RECORDS.iter().chain(COVERED.iter()) {
            check_row(rt, &mut line, stage, *row)?;
        }
    }
    Ok(())
}

#[test]
fn plain_posts_are_refused_by_number(rt: HostRuntime) -> Result<(), Fail> {
    check_stages::<PlainBound>(&rt, rt.alloc())
}

#[test]
fn marked_posts_are_refused_by_number(rt: HostRuntime) -> Result<(), Fail> {
    check_stages::<MarkedBound>(&rt, rt.alloc())
}
