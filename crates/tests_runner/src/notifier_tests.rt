use runner::Notifier;
use std::test::Fail;

// The first round finds nothing, and a container is started before the runner waits: there is a second round.
#[test]
fn a_start_behind_the_look_is_not_slept_through(rt: HostRuntime) -> Result<(), Fail> {
    let notifier = Notifier::new();
    let mut rounds: u32 = 0;
    notifier.work(&rt, || {
        rounds = rounds.saturating_add(1);
        if rounds == 1 {
            notifier.notify(&rt);
        } else {
            notifier.close(&rt);
        }
        false
    });
    assert_eq!(rt; rounds, 2);
    Ok(())
}

// A round that found something is followed by another one, without a start between them.
#[test]
fn work_that_is_left_is_not_waited_for(rt: HostRuntime) -> Result<(), Fail> {
    let notifier = Notifier::new();
    let mut rounds: u32 = 0;
    notifier.work(&rt, || {
        rounds = rounds.saturating_add(1);
        if rounds == 5 {
            notifier.close(&rt);
        }
        true
    });
    assert_eq!(rt; rounds, 5);
    Ok(())
}
