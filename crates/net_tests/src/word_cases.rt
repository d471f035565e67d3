//! Nets in words: how ranges, sizes and refusals are written.
use net_records::slot::Slot;
use net_words::{Ages, explain};
use std::alloc::{AllocError, Global};

fn ages_text(heap: Global, bytes: &[u8]) -> Result<String, AllocError> {
    match Slot::split(bytes) {
        Some((slot, _)) => Ages(slot).to_string(heap),
        None => Ok(String::new(heap)),
    }
}

#[cfg(test)]
mod tests {
    use super::*;
    use std::process::Abort;
    use std::test::Fail;

    fn check_ages(rt: &impl Abort, heap: Global, slot: &[u8], expected: &str) -> Result<(), Fail> {
        assert!(rt; ages_text(heap, slot)?.as_str() == expected, "{}", expected);
        Ok(())
    }

    fn check_net_text(
        rt: &impl Abort,
        heap: Global,
        bytes: &[u8],
        expected: &str,
    ) -> Result<(), Fail> {
        assert!(rt; explain(heap, bytes)?.as_str() == expected, "{}", expected);
        Ok(())
    }

    #[test]
    fn ages_in_words(rt: HostRuntime) -> Result<(), Fail> {
        let heap = rt.alloc();
        check_ages(&rt, heap, &[0, 0, 4, 0, 4], "age 1 to 2")?;
        check_ages(&rt, heap, &[0, 0, 12, 0, 6], "age 3")?;
        check_ages(&rt, heap, &[2, 0, 4, 0, 10], "age above 1 to 5")?;
        check_ages(&rt, heap, &[0, 0, 5, 0, 10], "age 1 to below 5")?;
        check_ages(&rt, heap, &[2, 0, 5, 0, 10], "age above 1 to below 5")?;
        check_ages(&rt, heap, &[0, 0, 6, 0, 0], "age 1 or more")?;
        check_ages(&rt, heap, &[0, 0, 2, 0, 0], "any age")?;
        check_ages(&rt, heap, &[2, 0, 6, 0, 0], "age above 1, no upper limit")
    }

    #[test]
    fn nets_without_transitions_and_refusals(rt: HostRuntime) -> Result<(), Fail> {
        let heap = rt.alloc();
        check_net_text(
            &rt,
            heap,
            &[0, 0, 0, 0],
            "plain net: 1 place, 0 transitions\n",
        )?;
        check_net_text(
            &rt,
            heap,
            &[0xbf, 0, 0, 0],
            "marked net: 64 places, 0 transitions\n",
        )?;
        check_net_text(
            &rt,
            heap,
            &[0x40, 2, 0, 0],
            "refused 10 in record 1: bytes are missing\n",
        )
    }
}
