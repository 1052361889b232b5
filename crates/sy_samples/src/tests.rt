use crate::{s, s2};
use std::test::Fail;

#[test]
fn the_second_sale_is_the_first_with_two_lines_more(rt: HostRuntime) -> Result<(), Fail> {
    let ending: &[u8] = b"endContract\n";
    let powers: &[u8] =
        b"Powers\npHold: happens(violated(oPay)) -> P(b, a, true, suspends(contract));\n";
    let begin = s().strip_suffix(ending).unwrap_or(b"");
    let behind = s2().strip_prefix(begin).unwrap_or(b"");
    assert!(rt; !begin.is_empty());
    assert_eq!(rt; behind.strip_suffix(ending).unwrap_or(b""), powers);
    Ok(())
}
