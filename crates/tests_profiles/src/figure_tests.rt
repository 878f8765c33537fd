use crate::drawn_profiles::{call, filter_of};
use bpf_machine::run;
use bpf_verify::Filter;
use oci_profile::runtime_default;
use std::test::Fail;

/// The greatest number of steps over the numbers of the table and some after it, and the sum of the steps.
fn steps_of(filter: &Filter) -> (u32, u32) {
    let mut most = 0;
    let mut all = 0u32;
    for nr in 0..451 {
        let steps = run(filter, &call(nr, 0, 0)).steps;
        most = most.max(steps);
        all = all.saturating_add(steps);
    }
    (most, all)
}

// The length of the filter, and the steps that it takes: within what other compilers need.
#[test]
fn figures_of_the_default(rt: HostRuntime) -> Result<(), Fail> {
    let profile = runtime_default(rt.alloc())?;
    let filter = filter_of(&rt, &profile)?;
    let (most, all) = steps_of(&filter);
    assert!(rt; filter.len() <= 60, "{}", filter.len());
    assert!(rt; most <= 13, "{most}");
    assert!(rt; all <= 4284, "{all}");
    let mut with_args = 0;
    let mut plain = 0;
    for nr in 0..451 {
        let steps = run(&filter, &call(nr, 0, 0)).steps;
        // clone and personality have conditions.
        if nr == 56 || nr == 135 {
            for first in [
                0,
                8,
                0x2_0000,
                0x2_0008,
                0xffff_ffff,
                0x1_0000_0000,
                0x7e02_0000,
                u64::MAX,
            ] {
                with_args = with_args.max(run(&filter, &call(nr, first, 0)).steps);
            }
        } else {
            plain = plain.max(steps);
        }
    }
    assert!(rt; plain <= 12, "{plain}");
    assert!(rt; with_args <= 15, "{with_args}");
    Ok(())
}

// RuntimeDefault's values for clone, clone3, ptrace, personality and read.
#[test]
fn values_of_the_default(rt: HostRuntime) -> Result<(), Fail> {
    let profile = runtime_default(rt.alloc())?;
    let filter = filter_of(&rt, &profile)?;
    let cases = [
        (56, 0x0120_0011, 0x7fff_0000),
        (56, 0x1000_0000, 0x0005_0001),
        (435, 0, 0x0005_0026),
        (101, 0, 0x0005_0001),
        (135, 0xffff_ffff, 0x7fff_0000),
        (135, 1, 0x0005_0001),
        (135, 0x1_0000_0000, 0x0005_0001),
        (0, 0, 0x7fff_0000),
    ];
    for (nr, first, want) in cases {
        assert_eq!(rt;
            run(&filter, &call(nr, first, 0)).value,
            want,
            "{nr} {first}"
        );
    }
    Ok(())
}
