use array::Array;
use code::{Refusal, Shape};
use recovery::{lose, quote};
use runs::{Answer, Call, Outcome, run};
use std::test::Fail;
use store::{ColumnStore, Table};
use symbol::{Byte, Symbol};

// A quote of another array is refused and stays in hand; an own one brings the column back with its newest symbol.
#[test]
fn quotes_in_hand(rt: HostRuntime) -> Result<(), Fail> {
    let larger = Shape::new(4, 2, 5)?;
    let mut more = [Byte::zero(); 112];
    let mut wide = Table::over(larger, &mut more);
    let other = Array::open(larger, &wide);
    lose(&other, &mut wide, 2)?;
    let mut hand = [Some(quote(&other, &wide, 2)?), None];
    let shape = Shape::new(4, 2, 3)?;
    let mut cells = [Byte::zero(); 56];
    let mut work = [Byte::zero(); 40];
    let mut table = Table::over(shape, &mut cells);
    let array = Array::open(shape, &table);
    let calls = [
        Call::Found,
        Call::Put {
            column: 2,
            row: 3,
            symbol: Byte { value: 7 },
        },
        Call::Lose { column: 2 },
        Call::Rebuild { slot: 0 },
        Call::Rebuild { slot: 1 },
        Call::Quote { column: 2, slot: 1 },
        Call::Rebuild { slot: 1 },
        Call::Get { column: 2, row: 3 },
    ];
    let mut answers = [Ok(None); 8];
    assert!(rt;
        run(
            &array,
            &mut table,
            &mut hand,
            &mut work,
            &calls,
            &mut answers
        ) == 8
    );
    let [_, _, lost, foreign, empty, quoted, back, got] = answers;
    assert_eq!(rt; lost, Ok(Some(Answer::Lost)));
    assert_eq!(rt; foreign, Err(Refusal::CountDiffers { count: 22 }));
    assert_eq!(rt; empty, Ok(None));
    assert_eq!(rt;
        quoted,
        Ok(Some(Answer::Quoted {
            column: 2,
            count: 22,
        }))
    );
    assert_eq!(rt; back, Ok(Some(Answer::Reads(22))));
    assert_eq!(rt; got, Ok(Some(Answer::Symbol(Byte { value: 7 }))));
    let [foreign, spent] = hand;
    assert!(rt; foreign.is_some() && spent.is_none());
    Ok(())
}

// As many calls are made as there is room for answers.
#[test]
fn room_for_answers(rt: HostRuntime) -> Result<(), Fail> {
    let shape = Shape::new(4, 2, 3)?;
    let mut cells = [Byte::zero(); 56];
    let mut work = [Byte::zero(); 40];
    let mut table = Table::over(shape, &mut cells);
    let array = Array::open(shape, &table);
    let calls = [
        Call::Lose { column: 1 },
        Call::Ask,
        Call::Lose { column: 2 },
    ];
    let mut answers: [Outcome<Byte>; 2] = [Ok(None); 2];
    assert!(rt; run(&array, &mut table, &mut [], &mut work, &calls, &mut answers) == 2);
    let [_, asked] = answers;
    assert_eq!(rt; asked, Ok(Some(Answer::Lowest(Some(1)))));
    assert!(rt; !table.is_lost(2));
    Ok(())
}
