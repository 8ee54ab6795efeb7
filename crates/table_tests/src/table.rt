//! The table of a round, on one thread and on two.

ghost use Rattle.std.specs.Prelude.{◌≡◌};

use search_table::{Draw, Pass, RoundEnd, RoundTable};
use std::test::Fail;
use std::thread::{Threads, join_mut};

#[test]
fn a_round_on_one_thread(rt: HostRuntime) -> Result<(), Fail> {
    let (table, mut first) = RoundTable::new(rt.alloc(), 9, 2, 2)?;
    let mut one = table.split(&mut first, 1);
    let mut two = table.split(&mut first, 2);
    assert_eq!(rt; (first.number(), one.number(), two.number()), (0, 1, 2));

    assert_eq!(rt; table.offer(&mut one, 7), 9);
    assert_eq!(rt; table.offer(&mut two, 8), 7);
    assert_eq!(rt; table.best(&mut first), 7);

    assert_eq!(rt; table.draw(&mut one), Draw::Ticket);
    assert_eq!(rt; table.draw(&mut two), Draw::Ticket);
    assert_eq!(rt; table.draw(&mut one), Draw::Spent(2));

    assert_eq!(rt; table.publish(&mut one), 0);
    assert_eq!(rt; table.publish(&mut one), 1);
    assert_eq!(rt; table.published(&mut two, 1), 2);
    assert_eq!(rt; (first.own(), one.own(), two.own()), (0, 2, 0));

    table.join(&mut first, one);
    table.join(&mut first, two);
    assert_eq!(rt;
        table.close_with(first),
        RoundEnd {
            best: 7,
            tickets: 3
        }
    );
    Ok(())
}

/// How often a worker of the next test draws at most, and the quota of all.
const TURNS: u64 = 700;

const QUOTA: u64 = 1000;

/// Offers an end, and draws until a draw is refused. Says how many tickets it won.
fn work(table: &RoundTable, pass: &mut Pass, end: u64) -> u64
    requires table { pass.old.table ≡ table.now }
    requires unrefused { pass.old.view.refused ≡ 0 }
    ensures table { pass.new.table ≡ pass.old.table }
    ensures passes { pass.new.view.passes ≡ pass.old.view.passes }
{
    table.offer(pass, end);
    for won in 0..TURNS {
        if table.draw(pass) != Draw::Ticket {
            return won;
        }
    }
    TURNS
}

/// Two workers, each in a thread of its own.
fn work_both<R: Threads + Sync>(
    rt: &R,
    table: &RoundTable,
    one: &mut Pass,
    two: &mut Pass,
) -> (u64, u64)
    requires one { one.old.table ≡ table.now }
    requires one_unrefused { one.old.view.refused ≡ 0 }
    requires two { two.old.table ≡ table.now }
    requires two_unrefused { two.old.view.refused ≡ 0 }
    ensures one { one.new.table ≡ one.old.table }
    ensures one_passes { one.new.view.passes ≡ one.old.view.passes }
    ensures two { two.new.table ≡ two.old.table }
    ensures two_passes { two.new.view.passes ≡ two.old.view.passes }
{
    join_mut(
        rt,
        &mut || work(table, one, 50),
        &mut || work(table, two, 40),
    )
}

#[test]
fn two_threads_offer_and_draw(rt: HostRuntime) -> Result<(), Fail> {
    let (table, mut first) = RoundTable::new(rt.alloc(), 5000, QUOTA, 2)?;
    let mut one = table.split(&mut first, 1);
    let mut two = table.split(&mut first, 2);
    let won = work_both(&rt, &table, &mut one, &mut two);
    table.join(&mut first, one);
    table.join(&mut first, two);
    assert_eq!(rt; won.0.saturating_add(won.1), QUOTA);
    assert_eq!(rt; table.close_with(first).best, 40);
    Ok(())
}

/// That threads may share the value.
fn is_shared<T: Sync>(_value: &T) {}

/// That the value may go to another thread.
fn is_sent<T: Send>(_value: &T) {}

#[test]
fn table_and_pass_cross_threads(rt: HostRuntime) -> Result<(), Fail> {
    let (table, pass) = RoundTable::new(rt.alloc(), 9, 2, 2)?;
    is_shared(&table);
    is_sent(&table);
    is_sent(&pass);
    Ok(())
}
