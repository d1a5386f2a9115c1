//! What no clause says: that the calls go well when they can, and that they count what other counters count.
use adfs_base::{Charge, Closing, Gate, HoldGate, Marked, Pick};
use credit_players::{
    Answers, Outcome, Round, claimed_by_two, closed_by_two, filled_by_one, played_by_four,
};
use std::test::Fail;
use std::thread::join;

#[test]
fn four_players_keep_to_the_limit_and_leave_nothing(rt: HostRuntime) -> Result<(), Fail> {
    for limit in [1, 2, 8] {
        let outcome = played_by_four(&rt, rt.alloc(), limit)?;
        let whole = Outcome {
            left: 0,
            faults: 0,
            filled: 8 * u64::from(limit),
        };
        assert_eq!(rt; outcome, Some(whole), "with the limit {limit}");
    }
    Ok(())
}

#[test]
fn one_worker_meets_the_limit_and_goes_on_once_a_credit_is_back(
    rt: HostRuntime,
) -> Result<(), Fail> {
    for limit in [1, 2, 16] {
        let round = Round {
            charged: limit,
            full: Charge::Full(u64::from(limit)),
            picked: Pick::Picked,
            again: Charge::Charged,
        };
        assert_eq!(rt; filled_by_one(rt.alloc(), limit)?, Some(round));
    }
    Ok(())
}

#[test]
fn two_threads_claim_each_root_once(rt: HostRuntime) -> Result<(), Fail> {
    for roots in [0, 1, 64, 65, 1_000] {
        let claimed = claimed_by_two(&rt, rt.alloc(), roots)?;
        assert_eq!(rt;
            claimed.map(|(chunks, end)| (tiled(chunks.as_slice()), end)),
            Some((roots, roots))
        );
    }
    Ok(())
}

/// Where the chunks end, which follow one another from 0 on, each of 1 to 64 roots. The greatest number where one doesn't.
fn tiled(chunks: &[(u64, u64)]) -> u64 {
    let mut next = 0;
    for (first, end) in chunks {
        if *first != next || *end <= next || *end - next > 64 {
            return u64::MAX;
        }
        next = *end;
    }
    next
}

#[test]
fn stages_close_one_after_the_other(rt: HostRuntime) -> Result<(), Fail> {
    let answers = Answers {
        while_enrolled: Marked::Busy(1),
        marked: (Marked::Zero, Marked::Zero),
        closed: (Some(Closing::Closed), Some(Closing::Moved(0, 1))),
        seen: 1,
        last: Some(Closing::Closed),
        all: 2,
    };
    assert_eq!(rt; closed_by_two(rt.alloc())?, Some(answers));
    Ok(())
}

#[test]
fn two_threads_meet_at_a_gate_and_one_thread_alone_does_not(rt: HostRuntime) {
    let gate = HoldGate::new(3, 5);
    join(&rt, || gate.pass(3, 0), || gate.pass(5, 0));
    assert!(rt; gate.met());
    let gate = HoldGate::new(0, 1);
    gate.pass(2, 0);
    gate.pass(0, 1);
    gate.pass(1, 0);
    gate.pass(0, 0);
    assert!(rt; !gate.met());
}
