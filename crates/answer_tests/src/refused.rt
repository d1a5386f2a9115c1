//! The lines of refusals, those among them that the program doesn't give yet.
use adfs_base::NoMemory;
use result_collect::{Refusal, put_refusal};
use std::alloc::Global;
use std::test::Fail;

const LINES: &str = "\
query 3 refused 11 OpenText at 29
query 3 refused 48 KeyNotSelected at 42
query 3 refused 47 TooWide words 41
query 3 refused 52 NeedsMore need 4 pool 3
";

fn lines(alloc: Global) -> Result<Vec<u8>, NoMemory> {
    let mut out = Vec::new(alloc);
    put_refusal(alloc, 3, &Refusal::At { code: 11, at: 29 }, &mut out)?;
    put_refusal(alloc, 3, &Refusal::At { code: 48, at: 42 }, &mut out)?;
    put_refusal(alloc, 3, &Refusal::TooWide(41), &mut out)?;
    put_refusal(alloc, 3, &Refusal::NeedsMore(4, 3), &mut out)?;
    Ok(out)
}

#[test]
fn refusals_tell_their_cause(rt: HostRuntime) -> Result<(), Fail> {
    let lines = lines(rt.alloc())?;
    assert_eq!(rt; lines.as_slice(), LINES.as_bytes());
    Ok(())
}
