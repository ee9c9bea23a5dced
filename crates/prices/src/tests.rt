// Prices at the edges of what marks, tapes and payoffs say.
use crate::marks::Mark;
use crate::payoffs::{Kind, Payoff, UnknownKind};
use crate::price_rows::PriceRows;
use crate::rows::RankedPrice;
use crate::sources::PriceSource;
use crate::tapes::TapeRow;
use std::alloc::Global;
use std::test::Fail;

fn mark(index: u16, price: u32) -> Mark {
    Mark { index, price }
}

fn held<T: RankedPrice + Copy>(heap: Global, rows: &[T]) -> Result<PriceRows<T>, Fail> {
    Ok(PriceRows::try_from(Vec::from_slice(heap, rows)?)?)
}

fn unsound<T: RankedPrice + Copy>(heap: Global, rows: &[T]) -> Result<Option<usize>, Fail> {
    let refused = PriceRows::try_from(Vec::from_slice(heap, rows)?).err();
    Ok(refused.map(|row| row.0))
}

fn tape_row(index: u16, moment: u32, price: u32) -> TapeRow {
    TapeRow {
        index,
        moment,
        price,
    }
}

#[test]
fn marks_answer_by_index(rt: HostRuntime) -> Result<(), Fail> {
    let marks = held(rt.alloc(), &[mark(2, 96_500), mark(4, 0), mark(6, 200_000)])?;
    assert_eq!(rt; marks.price(2, 0), Some(96_500));
    assert_eq!(rt; marks.price(4, 7), Some(0));
    assert_eq!(rt; marks.price(6, 7), Some(200_000));
    assert_eq!(rt; marks.price(5, 7), None);
    assert_eq!(rt; held::<Mark>(rt.alloc(), &[])?.price(5, 7), None);
    Ok(())
}

#[test]
fn a_repeated_mark_has_one_answer(rt: HostRuntime) -> Result<(), Fail> {
    let marks = held(
        rt.alloc(),
        &[mark(2, 1), mark(4, 2), mark(4, 3), mark(6, 4)],
    )?;
    assert_eq!(rt; marks.price(4, 0), marks.price(4, 9));
    assert_eq!(rt; marks.price(4, 0), Some(3));
    Ok(())
}

#[test]
fn unsound_marks_are_refused(rt: HostRuntime) -> Result<(), Fail> {
    assert_eq!(rt; unsound(rt.alloc(), &[mark(2, 200_000), mark(2, 1)])?, None);
    assert_eq!(rt; unsound(rt.alloc(), &[mark(2, 200_001)])?, Some(0));
    assert_eq!(rt;
        unsound(rt.alloc(), &[mark(2, 1), mark(3, 1), mark(2, 1)])?,
        Some(2)
    );
    Ok(())
}

#[test]
fn a_tape_answers_what_was_known(rt: HostRuntime) -> Result<(), Fail> {
    let rows = [
        tape_row(5, 10, 1),
        tape_row(7, 20, 2),
        tape_row(5, 20, 3),
        tape_row(5, 30, 4),
    ];
    let tape = held(rt.alloc(), &rows)?;
    assert_eq!(rt; tape.price(5, 9), None);
    assert_eq!(rt; tape.price(5, 10), Some(1));
    assert_eq!(rt; tape.price(5, 19), Some(1));
    assert_eq!(rt; tape.price(5, 20), Some(3));
    assert_eq!(rt; tape.price(5, 30), Some(4));
    assert_eq!(rt; tape.price(7, 19), None);
    assert_eq!(rt; tape.price(7, 99), Some(2));
    assert_eq!(rt; tape.price(6, 99), None);
    Ok(())
}

#[test]
fn unsound_tapes_are_refused(rt: HostRuntime) -> Result<(), Fail> {
    assert_eq!(rt;
        unsound(rt.alloc(), &[tape_row(9, 4, 200_000), tape_row(1, 4, 0)])?,
        None
    );
    assert_eq!(rt;
        unsound(rt.alloc(), &[tape_row(9, 4, 1), tape_row(9, 5, 200_001)])?,
        Some(1)
    );
    assert_eq!(rt;
        unsound(rt.alloc(), &[tape_row(1, 4, 1), tape_row(1, 3, 1)])?,
        Some(1)
    );
    Ok(())
}

#[test]
fn a_payer_gains_below_the_strike(rt: HostRuntime) {
    let payer = Payoff {
        kind: Kind::Payer,
        strike: 97_000,
        minimum: 50_000,
    };
    assert_eq!(rt; payer.value(100, 96_500), 50_000);
    assert!(rt; payer.in_the_money(100, 96_500));
    assert!(rt;
        !Payoff {
            minimum: 50_001,
            ..payer
        }
        .in_the_money(100, 96_500)
    );
    assert!(rt;
        !Payoff {
            minimum: 0,
            ..payer
        }
        .in_the_money(100, 97_000)
    );
    assert_eq!(rt; payer.value(-100, 96_500), -50_000);
    assert_eq!(rt; payer.value(0, 96_500), 0);
}

#[test]
fn a_receiver_gains_above_the_strike(rt: HostRuntime) {
    let receiver = Payoff {
        kind: Kind::Receiver,
        strike: 97_000,
        minimum: 1,
    };
    assert_eq!(rt; receiver.value(1, 97_001), 1);
    assert!(rt; receiver.in_the_money(1, 97_001));
    assert!(rt; !receiver.in_the_money(1, 97_000));
    assert!(rt; receiver.in_the_money(-1, 96_999));
}

#[test]
fn the_largest_values_are_exact(rt: HostRuntime) {
    let receiver = Payoff {
        kind: Kind::Receiver,
        strike: 0,
        minimum: 0,
    };
    assert_eq!(rt;
        receiver.value(i64::MIN, u32::MAX),
        -39_614_081_247_908_796_759_917_199_360
    );
}

#[test]
fn kinds_have_numbers(rt: HostRuntime) {
    assert_eq!(rt; Kind::try_from(0), Err(UnknownKind(0)));
    assert_eq!(rt; Kind::try_from(1), Ok(Kind::Payer));
    assert_eq!(rt; Kind::try_from(2), Ok(Kind::Receiver));
    assert_eq!(rt; Kind::try_from(3), Err(UnknownKind(3)));
}
