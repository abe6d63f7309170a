// What words plan, and that the replies to a run are those of an ordinary map, however it is cut.
use super::*;
use std::alloc::{AllocError, Global};
use std::process::Abort;
use std::test::Fail;
use std::thread::Threads;

fn given(alloc: Global, texts: &[&str]) -> Result<Vec<String>, AllocError> {
    texts
        .iter()
        .map(|text| String::from_str(alloc, text))
        .try_collect(alloc)
}

#[test]
fn words_of_another_form_plan_nothing(rt: HostRuntime) -> Result<(), Fail> {
    let cases: [&[&str]; 7] = [
        &[],
        &["load", "1", "1"],
        &["load", "1", "1", "1", "1"],
        &["dels", "1", "1", "1"],
        &["load", "100000001", "1", "1"],
        &["load", "1", "65537", "1"],
        &["load", "1", "1", "0"],
    ];
    for texts in cases {
        assert!(rt;
            words::read(&given(rt.alloc(), texts)?).is_none(),
            "{texts:?}"
        );
    }
    Ok(())
}

// A run of 300 calls of a kind leaves so many rows and has this sum, however it is cut and whoever works.
fn gives<R: Threads + Sync + Abort>(
    rt: &R,
    alloc: Global,
    kind: &str,
    rows: u64,
    sum: u64,
) -> Result<(), Fail> {
    for (batch, workers) in [("1", "1"), ("7", "3"), ("64", "1"), ("300", "64")] {
        let texts = given(alloc, &[kind, "300", batch, workers])?;
        let plan = words::read(&texts).expect(rt, "a plan");
        let outcome = run::<R, Brand>(rt, alloc, plan, Blank::new(1))?;
        assert_eq!(rt; outcome.rows, rows, "{kind} in batches of {batch}");
        assert_eq!(rt; outcome.sum, sum, "{kind} in batches of {batch}");
    }
    Ok(())
}

// The sums are those that bench/map.rs prints.
#[test]
fn every_cutting_gives_the_replies_of_an_ordinary_map(rt: HostRuntime) -> Result<(), Fail> {
    for (kind, rows, sum) in [
        ("load", 300, 0x03b8_ad66_bcfe_5ac0),
        ("sets", 413, 0xb336_4e00_4587_eb83),
        ("edits", 300, 0xe486_6efa_23d6_0116),
        ("gets", 300, 0x7629_f06c_0ca1_2a08),
        ("rates", 300, 0x9b95_566b_2af4_e9c0),
        ("nested", 300, 0x30d6_1fe8_8764_3ff0),
        ("narrow", 300, 0x77d5_0578_230d_b600),
        ("wide", 300, 0x77d5_0578_230d_b600),
        ("looks", 316, 0xd281_e101_bc7c_1ceb),
        ("half", 363, 0xb6cb_65cf_b60d_b509),
    ] {
        gives(&rt, rt.alloc(), kind, rows, sum)?;
    }
    Ok(())
}
