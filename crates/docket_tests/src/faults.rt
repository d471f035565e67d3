// What is wrong with a zone's record: each fault brings about one condition, whatever the others
// do.
use Fault::*;
use bounds::Bound;
use std::alloc::Global;
use std::test::Fail;
use test_records::zone_bytes::{ABOVE_1, MARKED_NO_LIMIT, MINUS_1, NO_LIMIT, record};

/// One thing that is wrong with a record, or nothing.
#[derive(Clone, Copy, PartialEq, Eq, Debug)]
pub enum Fault {
    Fine,
    // 20: 191 bytes, 193, none
    Short,
    Long,
    Empty,
    // 21: the first and the last bit that is spare, the place of token 2, the bound of two absent
    // tokens, a mark on no limit
    FirstSpare,
    LastSpare,
    AbsentPlace,
    AbsentBound,
    MarkedNoLimit,
    // 22: nine tokens
    NineTokens,
    // 23: the first place that is not in the net
    OutsidePlace,
    // 24 under plain kind: an age above 1
    Strict,
    // 25: an age of -1 at most
    Inconsistent,
    // 26: a token in place 0
    Covered,
}

// A record before it is written: its header, the two bounds of token 1's age, and the bound of
// tokens 8 and 7.
#[derive(Clone, Copy)]
struct Form {
    header: [u8; 12],
    upper: u32,
    lower: u32,
    absent: u32,
    length: usize,
}

impl Form {
    fn spoil(&mut self, fault: Fault) {
        match fault {
            Fault::Fine => {}
            Fault::Short => self.length = 191,
            Fault::Long => self.length = 193,
            Fault::Empty => self.length = 0,
            Fault::FirstSpare => self.header[0] |= 0x80,
            Fault::LastSpare => self.header[11] |= 0x01,
            Fault::AbsentPlace => self.header[2] |= 0x10,
            Fault::AbsentBound => self.absent = 0,
            Fault::MarkedNoLimit => self.upper = MARKED_NO_LIMIT,
            Fault::NineTokens => self.header[0] |= 0x09,
            Fault::OutsidePlace => self.header[1] = 0x08,
            Fault::Strict => self.lower = ABOVE_1,
            Fault::Inconsistent => self.upper = MINUS_1,
            Fault::Covered => self.header[1] = 0,
        }
    }
}

/// The record of one token in place 1 of any age, with these faults.
pub fn faulty(heap: Global, faults: [Fault; 2]) -> Result<Vec<u8>, Fail> {
    let mut form = Form {
        header: [1, 0x04, 0, 0, 0, 0, 0, 0, 0, 0, 0, 0],
        upper: NO_LIMIT,
        lower: NO_LIMIT,
        absent: NO_LIMIT,
        length: 192,
    };
    for fault in faults {
        form.spoil(fault);
    }
    let listed = [(1, 0, form.upper), (0, 1, form.lower), (8, 7, form.absent)];
    let mut bytes = record(heap, &form.header, &listed)?;
    bytes.resize(form.length, 0)?;
    Ok(bytes)
}

/// The faults of a record, in the order in which they are tested, with its number under plain and
/// under marked kind; 0 where it is taken.
pub type Row = ([Fault; 2], u8, u8);

/// The number that counts under a kind.
pub fn number_under<B: Bound>(plain: u8, marked: u8) -> u8 {
    if B::make(0, true).is_ok() {
        marked
    } else {
        plain
    }
}

/// The number of a row under a kind.
pub fn refusal_under<B: Bound>(row: Row) -> u8 {
    number_under::<B>(row.1, row.2)
}

/// Each number alone, by each of its faults; then each two neighbours, and some that lie further
/// apart.
pub const RECORDS: [Row; 33] = [
    // alone
    ([Short, Fine], 20, 20),
    ([Long, Fine], 20, 20),
    ([Empty, Fine], 20, 20),
    ([FirstSpare, Fine], 21, 21),
    ([LastSpare, Fine], 21, 21),
    ([AbsentPlace, Fine], 21, 21),
    ([AbsentBound, Fine], 21, 21),
    ([MarkedNoLimit, Fine], 21, 21),
    ([NineTokens, Fine], 22, 22),
    ([OutsidePlace, Fine], 23, 23),
    ([Strict, Fine], 24, 0),
    ([Inconsistent, Fine], 25, 25),
    // 20 before each later number
    ([Short, LastSpare], 20, 20),
    ([Long, FirstSpare], 20, 20),
    ([Short, NineTokens], 20, 20),
    ([Long, NineTokens], 20, 20),
    ([Short, OutsidePlace], 20, 20),
    ([Long, Strict], 20, 20),
    ([Short, Inconsistent], 20, 20),
    // 21 before each later number
    ([FirstSpare, NineTokens], 21, 21),
    ([MarkedNoLimit, NineTokens], 21, 21),
    ([AbsentPlace, OutsidePlace], 21, 21),
    ([AbsentBound, OutsidePlace], 21, 21),
    ([MarkedNoLimit, Strict], 21, 21),
    ([LastSpare, Strict], 21, 21),
    ([AbsentBound, Inconsistent], 21, 21),
    ([FirstSpare, Inconsistent], 21, 21),
    // 22 before each later number
    ([NineTokens, OutsidePlace], 22, 22),
    ([NineTokens, Strict], 22, 22),
    ([NineTokens, Inconsistent], 22, 22),
    // 23 before 24 and 25
    ([OutsidePlace, Strict], 23, 23),
    ([OutsidePlace, Inconsistent], 23, 23),
    // 24 before 25; a marked zone of an age above 1 and of -1 at most
    ([Strict, Inconsistent], 24, 25),
];
