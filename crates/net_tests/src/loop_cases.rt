//! Loops of timing constraints and what is printed of them.
use bounds::MarkedBound;
use loops::judge;
use std::alloc::{AllocError, Global};
use std::test::Fail;

fn printed(heap: Global, text: &str) -> Result<String, AllocError> {
    match judge::<MarkedBound>(text.as_bytes()) {
        Ok(verdict) => format!(in heap; "{verdict}"),
        Err(bad) => format!(in heap; "{bad}"),
    }
}

#[cfg(test)]
mod tests {
    use super::*;
    use std::process::Abort;

    fn check_case(rt: &impl Abort, heap: Global, text: &str, expected: &str) -> Result<(), Fail> {
        let line = printed(heap, text)?;
        assert!(rt; line.as_str() == expected, "{}", text);
        Ok(())
    }

    #[test]
    fn sums_and_verdicts(rt: HostRuntime) -> Result<(), Fail> {
        let heap = rt.alloc();
        check_case(&rt, heap, "3\n-3\n", "sum 0: some timing meets the loop")?;
        check_case(&rt, heap, "<3\n-3\n", "sum <0: no timing can meet the loop")?;
        check_case(&rt, heap, "<3\n<-2", "sum <1: some timing meets the loop")?;
        check_case(
            &rt,
            heap,
            "-262143\nno limit\n",
            "sum no limit: some timing meets the loop",
        )?;
        check_case(&rt, heap, "", "sum 0: some timing meets the loop")?;
        check_case(
            &rt,
            heap,
            "0007\n-8\n",
            "sum -1: no timing can meet the loop",
        )
    }

    #[test]
    fn the_first_bad_line_is_named(rt: HostRuntime) -> Result<(), Fail> {
        let heap = rt.alloc();
        let other = "not a bound (write a number as 3, a strict one as <3, or no limit)";
        check_case(
            &rt,
            heap,
            "262143\n-262144\nx\n",
            "line 2: the number is outside -262143 to 262143",
        )?;
        check_case(
            &rt,
            heap,
            "99999999999999999999",
            "line 1: the number is outside -262143 to 262143",
        )?;
        for bad in [
            "x",
            "",
            "-",
            "+3",
            " 3",
            "3 ",
            "<",
            "< 3",
            "<no limit",
            "3.5",
            "no limit\r",
        ] {
            let text = format!(in heap; "1\n{bad}\n")?;
            let expected = format!(in heap; "line 2: {other}")?;
            check_case(&rt, heap, text.as_str(), expected.as_str())?;
        }
        Ok(())
    }
}
