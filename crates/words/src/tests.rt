// What the built code leaves in words, against words that were worked out by hand. No program runs it.
use crate::adding::add;
use crate::items::{copy_from_slice, insert_from_slice, remove_range, set_item};
use plans::numbers::{Key, Time, Value};
use rows::row::{Row, RowKey, StageNumber};

fn row(end: u64, key: u64) -> Row {
    let at = RowKey {
        end: Time(end),
        stage: StageNumber(0),
        key: Key(key),
    };
    Row {
        at,
        value: Value(1),
    }
}

// Rows of no stage are counted: the third joins the first. The last two words are too few for a row.
#[test]
fn adds_rows(rt: HostRuntime) {
    let mut words = [9; 14];
    let one = add(&mut words, 0, row(20, 5), &[]);
    let two = add(&mut words, one, row(10, 7), &[]);
    let joined = add(&mut words, two, row(20, 5), &[]);
    assert_eq!(rt; joined, 2);
    assert_eq!(rt; words, [10, 0, 7, 1, 20, 0, 5, 2, 9, 9, 9, 9, 9, 9]);
}

#[test]
fn moves_items(rt: HostRuntime) {
    let mut words = [1, 2, 3, 4, 5, 6, 7, 8, 9];
    set_item(&mut words, 1, [30, 40]);
    let four = insert_from_slice(&mut words, 2, 1, &[[50, 60], [70, 80]]);
    assert_eq!(rt; words, [1, 2, 50, 60, 70, 80, 30, 40, 9]);
    let three = remove_range::<2>(&mut words, four, 0..1);
    assert_eq!(rt; three, 3);
    assert_eq!(rt; &words[..6], [50, 60, 70, 80, 30, 40].as_slice());
    copy_from_slice(&mut words, &[[0, 1]]);
    assert_eq!(rt; &words[..4], [0, 1, 70, 80].as_slice());
}
