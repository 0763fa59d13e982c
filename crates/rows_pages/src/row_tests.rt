// The bytes of a data row and of an index row.
use crate::made::{ROW, are_all, expect, expect_bytes};
use pg_base::PageNo;
use pg_row::{Row, read_row, write_row};

// Key 5, child 12.
static INDEX: [u8; 13] = [0x06, 5, 0, 0, 0, 0, 0, 0, 0, 12, 0, 0, 0];

fn write_first_leaf(into: &mut [u8; 1024]) -> u16 {
    let leaf = Row::Leaf {
        key: 1,
        payload: b"a",
    };
    write_row(&leaf, into)
}

fn keeps_rest(into: &[u8; 1024]) -> bool {
    are_all(&into[12..], 0xab)
}

fn is_first_leaf(into: &[u8; 1024]) -> bool {
    match read_row(&into[..12]) {
        Some(Row::Leaf { key, payload }) => key == 1 && payload.len() == 1 && payload[0] == b'a',
        _ => false,
    }
}

#[test]
fn a_written_leaf_row_is_read_again(rt: HostRuntime) {
    let mut into = [0xab; 1024];
    expect(&rt, write_first_leaf(&mut into) == 12);
    expect_bytes(&rt, &into[..12], &ROW);
    expect(&rt, keeps_rest(&into));
    expect(&rt, is_first_leaf(&into));
}

fn is_index(bytes: &[u8]) -> bool {
    match read_row(bytes) {
        Some(Row::Index { key, child }) => key == 5 && child == PageNo(12),
        _ => false,
    }
}

#[test]
fn a_written_index_row_is_read_again(rt: HostRuntime) {
    let mut into = [0xab; 1024];
    let index = Row::Index {
        key: 5,
        child: PageNo(12),
    };
    expect(&rt, write_row(&index, &mut into) == 13);
    expect_bytes(&rt, &into[..13], &INDEX);
    expect(&rt, is_index(&into[..13]));
}

static SHORT_BY_ITSELF: [u8; 10] = [0x10, 10, 0, 1, 0, 0, 0, 0, 0, 0];

static OF_NO_KIND: [u8; 12] = [0x11, 12, 0, 1, 0, 0, 0, 0, 0, 0, 0, b'a'];

static LONGER: [u8; 13] = [0x10, 12, 0, 1, 0, 0, 0, 0, 0, 0, 0, b'a', 0];

fn is_row(bytes: &[u8]) -> bool {
    read_row(bytes).is_some()
}

#[test]
fn other_bytes_are_no_row(rt: HostRuntime) {
    expect(&rt, !is_row(&[]));
    expect(&rt, !is_row(&ROW[..11]));
    expect(&rt, !is_row(&LONGER));
    expect(&rt, !is_row(&INDEX[..12]));
    expect(&rt, !is_row(&SHORT_BY_ITSELF));
    expect(&rt, !is_row(&OF_NO_KIND));
}
