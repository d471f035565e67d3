//! A zone in a draft, in words.
use bounds::{Bound, PlainBound, bound_of};
use file_words::zone::write_zone;
use std::test::Fail;
use zone_drafts::draft::DRAFT_CELLS;
use zone_drafts::tokens::Tokens;

// The same tokens are handed on twice, as they are copied.
#[test]
fn a_zone_of_a_draft_in_words(rt: HostRuntime) -> Result<(), Fail> {
    let mut cells = [PlainBound::no_limit(); DRAFT_CELLS];
    cells[1] = bound_of(-3, false);
    let mut tokens = Tokens::new();
    tokens.push(7);
    let mut text = String::new(rt.alloc());
    write_zone(&mut text, 2, tokens, &cells)?;
    write_zone(&mut text, 0, tokens, &cells)?;
    let rest = "  token 1 in place 7
  clock less: clock no limit | token 1 -3
  token 1 less: clock no limit | token 1 no limit
";
    let expected = format!(in rt.alloc(); "zone 2: 1 token\n{rest}target: 1 token\n{rest}")?;
    assert!(rt; text.as_str() == expected.as_str());
    Ok(())
}
