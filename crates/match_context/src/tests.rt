//! Contexts and buffers hold what is put into them.
use super::*;
use adfs_base::CONTEXT_WORDS;
use std::test::Fail;

#[test]
fn words_stand_in_their_places(rt: HostRuntime) -> Result<(), Fail> {
    let mut words = [0; CONTEXT_WORDS as usize];
    words[0] = 2;
    words[1] = 7;
    words[2] = 8;
    words[3] = 9;
    let context = Context { words };
    assert_eq!(rt; context.number(0), 7);
    assert_eq!(rt; context.number(1), 8);
    assert_eq!(rt; context.captured(2, 0), Some(9));
    assert_eq!(rt; context.captured(2, 1), None);
    Ok(())
}
