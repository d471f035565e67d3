//! One bound of a zone record: a mark and a number.
ghost use Rattle.std.specs.Prelude.{◌≡◌, ◌^◌, ◌<◌};
ghost use Rattle.docket_records.specs.ZoneRecords.{entry_number, limit_of, signed};

/// What the 20 bits of a bound say.
#[derive(Clone, Copy, PartialEq, Eq, Debug)]
pub struct RecordBound {
    pub mark: bool,
    /// none is no limit
    pub number: Option<i32>,
}

/// The least number of 19 bits says no limit.
const NO_LIMIT: i32 = -262_144;

pub(crate) fn limit_of(number: i32) -> Option<i32>
    ensures { result ≡ limit_of number }
{
    (number != NO_LIMIT).then_some(number)
}

/// How many bounds stand before that of `j` and `i`.
pub(crate) fn entry_number(j: u8, i: u8) -> usize
    ensures { result ≡ entry_number j i }
{
    let column = if j < i { i - 1 } else { i };
    8 * usize::from(j) + usize::from(column)
}

/// 19 bits in two's complement.
pub(crate) fn signed(n: u32) -> i32
    requires { n < 2 ^ 19 }
    ensures { result ≡ signed n }
{
    let number = n as i32;
    if n < 262_144 {
        number
    } else {
        number - 524_288
    }
}
