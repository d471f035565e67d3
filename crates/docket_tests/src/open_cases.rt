// What opening is refused for.
use crate::faults::{Fault, RECORDS, faulty, refusal_under};
use crate::fixture::{Call, Fixture};
use crate::stages::{STAGES, Stage, line_at, two_carriers};
use bounds::{Bound, MarkedBound, PlainBound};
use std::alloc::Global;
use std::process::Abort;
use std::test::Fail;

// Places and ages of the initial tokens; the net has two places.
#[derive(Clone, Copy)]
enum Initial {
    Fine,
    // 41: a place more than ages or an age more than places; with 22 and with 23
    NoAge,
    NoPlace,
    TwoAges,
    NinePlaces,
    OldAndNoPlace,
    OutsideAndNoAge,
    // 22: nine tokens, and ages of 16 bits; with 23
    NineTokens,
    Old,
    SecondOld,
    NineOutside,
    OldOutside,
    // 23
    Outside,
    SecondOutside,
}

fn places(initial: Initial) -> &'static [u8] {
    match initial {
        Initial::Fine | Initial::NoAge | Initial::TwoAges | Initial::Old => &[0],
        Initial::NoPlace | Initial::OldAndNoPlace => &[],
        Initial::NinePlaces | Initial::NineTokens => &[0, 0, 0, 0, 0, 0, 0, 0, 0],
        Initial::NineOutside => &[0, 0, 0, 0, 0, 0, 0, 0, 2],
        Initial::OutsideAndNoAge | Initial::OldOutside | Initial::Outside => &[2],
        Initial::SecondOld => &[0, 1],
        Initial::SecondOutside => &[0, 255],
    }
}

fn ages(initial: Initial) -> &'static [u16] {
    match initial {
        Initial::Fine | Initial::NoPlace | Initial::Outside => &[2],
        Initial::NoAge | Initial::OutsideAndNoAge => &[],
        Initial::TwoAges | Initial::SecondOutside => &[2, 2],
        Initial::NinePlaces => &[2, 2, 2, 2, 2, 2, 2, 2],
        Initial::NineTokens | Initial::NineOutside => &[2, 2, 2, 2, 2, 2, 2, 2, 2],
        Initial::Old | Initial::OldOutside | Initial::OldAndNoPlace => &[32768],
        Initial::SecondOld => &[2, 65535],
    }
}

// With a fault of the target's record, and the number.
const MARKINGS: [(Initial, Fault, u8); 28] = [
    // nothing is wrong: a blank docket takes it
    (Initial::Fine, Fault::Fine, 0),
    // 41 by unequal lists, before each later number
    (Initial::NoAge, Fault::Fine, 41),
    (Initial::NoPlace, Fault::Fine, 41),
    (Initial::TwoAges, Fault::Fine, 41),
    (Initial::NinePlaces, Fault::Fine, 41),
    (Initial::OldAndNoPlace, Fault::Fine, 41),
    (Initial::OutsideAndNoAge, Fault::Fine, 41),
    (Initial::NoAge, Fault::Short, 41),
    (Initial::TwoAges, Fault::Inconsistent, 41),
    // 22
    (Initial::NineTokens, Fault::Fine, 22),
    (Initial::Old, Fault::Fine, 22),
    (Initial::SecondOld, Fault::Fine, 22),
    // 22 before 23 and before what is wrong with the target
    (Initial::NineOutside, Fault::Fine, 22),
    (Initial::OldOutside, Fault::Fine, 22),
    (Initial::NineTokens, Fault::Short, 22),
    (Initial::Old, Fault::LastSpare, 22),
    (Initial::NineOutside, Fault::Empty, 22),
    (Initial::NineTokens, Fault::OutsidePlace, 22),
    (Initial::SecondOld, Fault::Inconsistent, 22),
    // 23
    (Initial::Outside, Fault::Fine, 23),
    (Initial::SecondOutside, Fault::Fine, 23),
    // 23 before what is wrong with the target
    (Initial::Outside, Fault::Short, 23),
    (Initial::Outside, Fault::Long, 23),
    (Initial::Outside, Fault::FirstSpare, 23),
    (Initial::SecondOutside, Fault::MarkedNoLimit, 23),
    (Initial::Outside, Fault::NineTokens, 23),
    (Initial::Outside, Fault::Strict, 23),
    (Initial::SecondOutside, Fault::Inconsistent, 23),
];

// The call that a blank docket refuses with this number; 0 where it is taken.
fn check_call<B: Bound + PartialEq>(
    rt: &impl Abort,
    line: &mut Fixture<'_, B>,
    stage: Stage,
    initial: Initial,
    faults: [Fault; 2],
    refusal: u8,
) -> Result<(), Fail> {
    let target = faulty(line.heap, faults)?;
    let call = Call::Open(places(initial), ages(initial), &target);
    if stage == Stage::Blank {
        line.refuses_each(rt, call, refusal, 41)
    } else {
        line.refuses_each(rt, call, 40, 40)
    }
}

fn check_stage<B: Bound + PartialEq>(
    rt: &impl Abort,
    line: &mut Fixture<'_, B>,
    stage: Stage,
) -> Result<(), Fail> {
    for row in RECORDS {
        let number = refusal_under::<B>(row);
        check_call(rt, line, stage, Initial::Fine, row.0, number)?;
    }
    for (initial, fault, number) in MARKINGS {
        check_call(rt, line, stage, initial, [fault, Fault::Fine], number)?;
    }
    Ok(())
}

fn check_stages<B: Bound + PartialEq>(rt: &impl Abort, heap: Global) -> Result<(), Fail> {
    let bytes = two_carriers(heap)?;
    for stage in STAGES {
        let mut line: Fixture<'_, B> = line_at(rt, heap, &bytes, stage)?;
        check_stage(rt, &mut line, stage)?;
    }
    Ok(())
}

#[test]
fn plain_opens_are_refused_by_number(rt: HostRuntime) -> Result<(), Fail> {
    check_stages::<PlainBound>(&rt, rt.alloc())
}

#[test]
fn marked_opens_are_refused_by_number(rt: HostRuntime) -> Result<(), Fail> {
    check_stages::<MarkedBound>(&rt, rt.alloc())
}
