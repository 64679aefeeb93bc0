use ooo_time::{Delay, Scale, Stamp, Time, TimeTooLarge, advance, from_amount, print};
use std::alloc::AllocError;

// Worked by hand: the largest unit of which each is a whole number.
#[test]
fn prints_in_the_largest_whole_unit(rt: HostRuntime) -> Result<(), AllocError> {
    let rows: [(u64, &str); 10] = [
        (0, "0 s"),
        (1, "1 ps"),
        (999, "999 ps"),
        (1_000, "1 ns"),
        (1_500, "1500 ps"),
        (1_000_000, "1 us"),
        (1_000_000_000, "1 ms"),
        (1_000_000_000_000, "1 s"),
        (90_000_000_000_000, "90 s"),
        (4_611_686_018_427_387_903, "4611686018427387903 ps"),
    ];
    for (ticks, wanted) in rows {
        let text = print(rt.alloc(), Time(ticks))?;
        assert!(rt; text.as_slice() == wanted.as_bytes(), "{wanted}");
    }
    Ok(())
}

// The bound is 2^62 - 1 ticks, and a product may be beyond 64 bits.
#[test]
fn takes_amounts_up_to_the_greatest_time(rt: HostRuntime) {
    assert!(rt; from_amount(0, Scale::Sec) == Ok(Time(0)));
    assert!(rt; from_amount(10, Scale::Ns) == Ok(Time(10_000)));
    assert!(rt; from_amount(4_611_686_018_427_387_903, Scale::Ps) == Ok(Time::GREATEST));
    assert!(rt; from_amount(4_611_686_018_427_387_904, Scale::Ps) == Err(TimeTooLarge));
    assert!(rt; from_amount(4_611_686, Scale::Sec) == Ok(Time(4_611_686_000_000_000_000)));
    assert!(rt; from_amount(4_611_687, Scale::Sec) == Err(TimeTooLarge));
    assert!(rt; from_amount(18_446_744_073_709_551_615, Scale::Sec) == Err(TimeTooLarge));
}

// Worked by hand: delta cycles add up within a time, and a later time begins them anew.
#[test]
fn delays_join_in_their_order(rt: HostRuntime) {
    let late = Delay {
        time: Time(5),
        deltas: 2,
    };
    let delta = late.then(Delay::DELTA);
    assert!(rt; delta.time == Time(5) && delta.deltas == 3);
    let later = Delay::DELTA.then(late);
    assert!(rt; later.time == Time(5) && later.deltas == 2);
    assert!(rt; later.is_less(delta));
    let stamp = advance(
        Stamp {
            time: Time(7),
            delta: 4,
        },
        Delay::DELTA,
    );
    assert!(rt; stamp.time == Time(7) && stamp.delta == 5);
    let stamp = advance(
        Stamp {
            time: Time(7),
            delta: 4,
        },
        late,
    );
    assert!(rt; stamp.time == Time(12) && stamp.delta == 2);
}
