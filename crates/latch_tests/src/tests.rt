use crate::{Desk, Entry, add_by_two, add_while_held, reopen};
use std::test::Fail;

// The amounts of a seat's entries, in their order, and nothing of others.
fn has_in_order(history: &[Entry], actor: u64, amounts: &[u64]) -> bool {
    let mut next = 0;
    for entry in history {
        if entry.actor == Some(actor) {
            if next >= amounts.len() || entry.amount != amounts[next] {
                return false;
            }
            next += 1;
        }
    }
    next == amounts.len()
}

#[test]
fn two_threads_add_to_one_history(rt: HostRuntime) -> Result<(), Fail> {
    let desk = Desk {
        base: 7,
        history: Vec::new(rt.alloc()),
    };
    let first = [1, 2, 3, 4];
    let second = [10, 20, 30];
    let Ok(run) = add_by_two(&rt, rt.alloc(), desk, &first, &second) else {
        panic!(rt; "no memory")
    };
    assert_eq!(rt; (run.desk.base, run.desk.history.len()), (7, 7));
    assert_eq!(rt; (run.first.added, run.second.added), (4, 3));
    let history = run.desk.history.as_slice();
    assert!(rt; has_in_order(history, 0, &first) && has_in_order(history, 1, &second));
    assert!(rt; run.first.seen <= 7 && run.second.seen <= 7);
    assert!(rt; has_in_order(&history[..run.first.seen as usize], 0, &first));
    assert!(rt; has_in_order(&history[..run.second.seen as usize], 1, &second));
    assert!(rt; run.first.seen == 7 || run.second.seen == 7);
    Ok(())
}

#[test]
fn closing_all_seats_gives_the_desk_back(rt: HostRuntime) -> Result<(), Fail> {
    let mut desk = Desk {
        base: 7,
        history: Vec::new(rt.alloc()),
    };
    assert_eq!(rt; desk.add(1, 5), 1);
    let Ok(desk) = reopen(rt.alloc(), desk, 5) else {
        panic!(rt; "no memory")
    };
    assert_eq!(rt; (desk.base, desk.history.len()), (7, 1));
    Ok(())
}

// The second thread has gone to wait before the first seat leaves, and is woken by that.
#[test]
fn a_seat_that_waits_is_woken(rt: HostRuntime) -> Result<(), Fail> {
    let desk = Desk {
        base: 7,
        history: Vec::new(rt.alloc()),
    };
    let Ok(waited) = add_while_held(&rt, rt.alloc(), desk, &[5, 6]) else {
        panic!(rt; "no memory")
    };
    assert_eq!(rt;
        (waited.desk.base, waited.told.added, waited.told.seen),
        (7, 2, 2)
    );
    assert!(rt; has_in_order(waited.desk.history.as_slice(), 1, &[5, 6]));
    Ok(())
}
