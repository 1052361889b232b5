use std::test::Fail;
use sy_base::Text;
use sy_given::Known;

#[test]
fn copies_a_text(rt: HostRuntime) -> Result<(), Fail> {
    let alloc = rt.alloc();
    let known = Known::Text(Text::new(alloc, b"Farm")?);
    let Known::Text(copy) = known.copy(alloc)? else {
        return Err(Fail::from("another value"));
    };
    assert!(rt; copy.bytes() == b"Farm".as_slice());
    Ok(())
}
