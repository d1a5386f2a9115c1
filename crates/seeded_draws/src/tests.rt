//! Draws that are known from outside.
use super::*;
use std::test::Fail;

#[test]
fn the_draws_of_seed_0_are_known(rt: HostRuntime) -> Result<(), Fail> {
    let known = [
        16_294_208_416_658_607_535,
        7_960_286_522_194_355_700,
        487_617_019_471_545_679,
        17_909_611_376_780_542_444,
        1_961_750_202_426_094_747,
    ];
    let mut draws = Draws { state: 0 };
    for number in known {
        assert_eq!(rt; draws.next(), number);
    }
    Ok(())
}
