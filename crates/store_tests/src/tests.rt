// Rows, locks and kept functions, with values worked out by hand.
ghost use Rattle.std.specs.Prelude.{◌≤◌, length, IfOk};
ghost use Rattle.row_lock.specs.Holding.{size};

use crate::{AsAsked, AtPause, Rising, Taken, ask_by_two, clear_by_two, put, take};
use pace::{Brake, Pacer, Progress, Turn};
use row_lock::{Locks, Reach};
use row_store::RowStore;
use sql_base::{List, NoMemory, Value};
use std::alloc::Global;
use std::test::Fail;

// A row of one number.
fn row(alloc: Global, number: i64) -> Result<List<Value>, NoMemory> {
    let mut row = List::new(alloc);
    row.push(Value::Int(number))?;
    Ok(row)
}

// Whether it is a row of just this number.
fn is_row(row: Option<&[Value]>, number: i64) -> bool {
    match row {
        Some(values) => {
            values.len() == 1
                && match values.first() {
                    Some(Value::Int(other)) => *other == number,
                    _ => false,
                }
        }
        None => false,
    }
}

// Whether a row of just this number is under this key.
fn is_at(found: Option<(i64, &[Value])>, key: i64, number: i64) -> bool {
    match found {
        Some((other, values)) => other == key && is_row(Some(values), number),
        None => false,
    }
}

// Rows of keys 5, -3, 9 and 0, put in this order, each with ten times its key.
fn four_rows(alloc: Global) -> Result<RowStore, NoMemory> {
    let mut store = RowStore::new(alloc);
    for key in [5, -3, 9, 0] {
        let row = row(alloc, key * 10)?;
        let _former = put(&mut store, key, row)?;
    }
    Ok(store)
}

// The reach of a few keys.
fn keys(alloc: Global, keys: &[i64]) -> Result<Reach, NoMemory>
    requires { length keys.now ≤ 100 }
    ensures { IfOk result (λ reach. size reach ≤ 100) }
{
    let keys = Vec::from_slice(alloc, keys)?;
    Ok(Reach::Keys(List::from_vec(keys)))
}

#[test]
fn an_empty_store_has_nothing(rt: HostRuntime) -> Result<(), Fail> {
    let mut store = RowStore::new(rt.alloc());
    assert_eq!(rt; store.len(), 0);
    assert!(rt;
        store.get(1).is_none() && store.at(0).is_none() && store.scan_from(i64::MIN).is_none()
    );
    assert!(rt; store.remove(1).is_none());
    store.reserve(2)?;
    assert_eq!(rt; store.len(), 0);
    Ok(())
}

#[test]
fn rows_are_found_by_key_and_in_order(rt: HostRuntime) -> Result<(), Fail> {
    let store = four_rows(rt.alloc())?;
    assert_eq!(rt; store.len(), 4);
    assert!(rt; is_row(store.get(5), 50) && is_row(store.get(-3), -30) && is_row(store.get(0), 0));
    assert!(rt; store.get(4).is_none() && store.get(10).is_none());
    assert!(rt; is_at(store.at(0), -3, -30) && is_at(store.at(1), 0, 0));
    assert!(rt; is_at(store.at(2), 5, 50) && is_at(store.at(3), 9, 90) && store.at(4).is_none());
    assert!(rt; is_at(store.scan_from(i64::MIN), -3, -30) && is_at(store.scan_from(-3), -3, -30));
    assert!(rt; is_at(store.scan_from(-2), 0, 0) && is_at(store.scan_from(6), 9, 90));
    assert!(rt; is_at(store.scan_from(9), 9, 90) && store.scan_from(10).is_none());
    Ok(())
}

#[test]
fn rows_are_put_replaced_and_removed(rt: HostRuntime) -> Result<(), Fail> {
    let mut store = four_rows(rt.alloc())?;
    let former = put(&mut store, 5, row(rt.alloc(), 51)?)?;
    let Some(former) = former else {
        panic!(rt; "the former row is lost")
    };
    assert!(rt;
        is_row(Some(former.as_slice()), 50) && is_row(store.get(5), 51) && store.len() == 4
    );
    if store.get(9).is_none() {
        panic!(rt; "the row of key 9 is lost")
    }
    let former = store.replace(9, row(rt.alloc(), 91)?);
    assert!(rt;
        is_row(Some(former.as_slice()), 90) && is_row(store.get(9), 91) && store.len() == 4
    );
    let removed = store.remove(0);
    let Some(removed) = removed else {
        panic!(rt; "the removed row is lost")
    };
    assert!(rt;
        is_row(Some(removed.as_slice()), 0) && store.remove(0).is_none() && store.len() == 3
    );
    assert!(rt;
        is_at(store.at(0), -3, -30) && is_at(store.at(1), 5, 51) && is_at(store.at(2), 9, 91)
    );
    Ok(())
}

#[test]
fn keys_put_downwards_are_scanned_upwards(rt: HostRuntime) -> Result<(), Fail> {
    let mut store = RowStore::new(rt.alloc());
    for below in 0..1_000i64 {
        let key = 999i64.saturating_sub(below);
        assert!(rt; put(&mut store, key, row(rt.alloc(), key)?)?.is_none());
    }
    assert_eq!(rt; store.len(), 1_000);
    for place in 0..1_000usize {
        let key = place as i64;
        assert!(rt; is_at(store.at(place), key, key) && is_at(store.scan_from(key), key, key));
    }
    Ok(())
}

#[test]
fn a_key_is_held_by_one_ticket(rt: HostRuntime) -> Result<(), Fail> {
    let mut locks = Locks::new(rt.alloc());
    assert_eq!(rt;
        (locks.held(1, 5), locks.held_any(1), locks.open_count()),
        (None, None, 0)
    );
    let first = take(&mut locks, 9, 1, keys(rt.alloc(), &[5, -3])?)?;
    let second = take(&mut locks, 4, 1, keys(rt.alloc(), &[7])?)?;
    let third = take(&mut locks, 6, 2, Reach::Table)?;
    assert!(rt; first == Taken::All && second == Taken::All && third == Taken::All);
    assert_eq!(rt;
        (locks.held(1, 5), locks.held(1, -3), locks.held(1, 7)),
        (Some(9), Some(9), Some(4))
    );
    assert_eq!(rt;
        (locks.held(1, 6), locks.held(2, 6), locks.held(3, 5)),
        (None, Some(6), None)
    );
    assert_eq!(rt;
        (locks.held_any(1), locks.held_any(2), locks.held_any(3)),
        (Some(4), Some(6), None)
    );
    assert_eq!(rt; locks.open_count(), 3);
    Ok(())
}

#[test]
fn what_is_held_is_not_taken_until_it_is_released(rt: HostRuntime) -> Result<(), Fail> {
    let mut locks = Locks::new(rt.alloc());
    let first = take(&mut locks, 9, 1, keys(rt.alloc(), &[5, 6])?)?;
    let second = take(&mut locks, 4, 1, keys(rt.alloc(), &[6, 7])?)?;
    let whole = take(&mut locks, 3, 1, Reach::Table)?;
    assert!(rt; first == Taken::All && second == Taken::HeldBy(9) && whole == Taken::HeldBy(9));
    assert_eq!(rt; (locks.held(1, 7), locks.open_count()), (None, 1));
    locks.release(9);
    assert_eq!(rt; (locks.held_any(1), locks.open_count()), (None, 0));
    let whole = take(&mut locks, 3, 1, Reach::Table)?;
    let second = take(&mut locks, 4, 1, keys(rt.alloc(), &[6, 7])?)?;
    assert!(rt; whole == Taken::All && second == Taken::HeldBy(3));
    locks.release(3);
    assert_eq!(rt; (locks.held(1, 6), locks.open_count()), (None, 0));
    locks.stands();
    Ok(())
}

#[test]
fn kept_functions_are_asked(rt: HostRuntime) -> Result<(), Fail> {
    let progress = Progress {
        done: 12_345,
        total: 20_000,
        batch: 1_000,
        pause: 12_346,
    };
    let pacer = Pacer::new(AsAsked);
    assert_eq!(rt; pacer.ask(progress), 1_000);
    let pacer = Pacer::new(Rising);
    assert_eq!(rt; pacer.ask(progress), 2_346);
    let brake = Brake::new(AtPause);
    assert!(rt; brake.ask(progress) == Turn::Go);
    let later = Progress {
        done: 12_346,
        ..progress
    };
    assert!(rt; brake.ask(later) == Turn::Stop);
    let (first, second) = ask_by_two(&rt, &pacer, progress, later);
    assert_eq!(rt; (first, second), (2_346, 2_347));
    Ok(())
}

#[test]
fn rows_and_locks_go_to_other_threads(rt: HostRuntime) -> Result<(), Fail> {
    let store = four_rows(rt.alloc())?;
    let mut locks = Locks::new(rt.alloc());
    let taken = take(&mut locks, 9, 1, Reach::Table)?;
    assert!(rt; taken == Taken::All && locks.open_count() == 1);
    let (store, locks) = clear_by_two(&rt, store, 5, locks, 9);
    assert!(rt; store.len() == 3 && store.get(5).is_none() && locks.open_count() == 0);
    Ok(())
}
