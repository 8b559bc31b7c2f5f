//! Calls of a desk in turn, and what it answers.

use crate::desk_scripts::assert_plays;
use rate_desk::CALL_LIMIT;
use std::test::Fail;

#[test]
fn plis_as_in_example_16(rt: HostRuntime) -> Result<(), Fail> {
    let script = "pli 0: sent 0\n\
        pli 100: done 0\n\
        pli 400: done 0\n\
        tick 499: done 0\n\
        tick 500: sent 0\n\
        tick 1000: done 0\n\
        pli 1200: sent 0\n";
    assert_plays(&rt, rt.alloc(), 0, script)
}

/// 17 asks, a PLI goes upstream, and 1,030 ticks: 1,033 calls. A PLI that comes too early then waits for its gap.
#[test]
fn base_of_example_28(rt: HostRuntime) -> Result<(), Fail> {
    let script = "arrive 17 1: done 0\n\
        ask 17 1 0007d028: done 1 set 17 0007d028 fresh 17 0007d028\n\
        pli 0: sent 1 set 17 0007d028\n\
        ticks 1030:\n\
        look: calls 9 words 512040 greatest 0 wanted false last up 0 present 17 1 asks 0007d028 0 \
        listed 1024 of 1033 live 17 0007d028\n\
        pli 400: done 1 set 17 0007d028\n\
        tick 500: sent 1 set 17 0007d028\n";
    assert_plays(&rt, rt.alloc(), 0, script)
}

/// The owners of requests that are too old stay present.
#[test]
fn requests_age_as_in_example_29(rt: HostRuntime) -> Result<(), Fail> {
    let script = "arrive 17 1: done 0\n\
        ask 17 1 01f40028: done 1 set 17 01f40028 fresh 17 01f40028\n\
        tick 600: done 1 set 17 01f40028\n\
        arrive 18 2: done 1 set 17 01f40028\n\
        ask 18 2 01d4c014: done 11 set 18 01d4c014 17 01f40028 fresh 18 01d4c014\n\
        expire 999: done 11 set 18 01d4c014 17 01f40028\n\
        expire 1000: done 1 set 18 01d4c014 lifted 17\n\
        expire 1599: done 1 set 18 01d4c014\n\
        expire 1600: done 0 lifted 18\n\
        ask 17 1 0007d028: done 1 set 17 0007d028 fresh 17 0007d028\n";
    assert_plays(&rt, rt.alloc(), 1000, script)
}

#[test]
fn stays_of_example_27(rt: HostRuntime) -> Result<(), Fail> {
    let script = "depart 17 1: not present 0\n\
        arrive 17 1: done 0\n\
        arrive 17 2: already present 1\n\
        ask 17 2 0007d028: not present 1\n\
        ask 17 1 0007d028: done 1 set 17 0007d028 fresh 17 0007d028\n\
        look: calls 0 words 0 greatest 0 wanted false listed 5 of 5 live 17 0007d028\n";
    assert_plays(&rt, rt.alloc(), 0, script)
}

#[test]
fn limit_that_no_call_reaches(rt: HostRuntime) {
    assert_eq!(rt; CALL_LIMIT, 2_147_483_648, "2^31");
}
