//! Values from outside: days by their numbers, texts by theirs, and what cells are written back as.
use adfs_base::{Kind, NoMemory, Value};
use std::alloc::Global;
use std::cmp::Ordering;
use std::test::Fail;
use value_text::{CellFault, Texts, compare, put_text, put_value, read_date, read_key, read_value};

#[test]
fn days_count_from_1970(rt: HostRuntime) -> Result<(), Fail> {
    for (text, day) in [
        ("1970-01-01", 0),
        ("1970-01-02", 1),
        ("1969-12-31", -1),
        ("2000-02-29", 11_016),
        ("2024-02-29", 19_782),
        ("0000-01-01", -719_528),
        ("0000-02-29", -719_469),
        ("9999-12-31", 2_932_896),
    ] {
        assert_eq!(rt; read_date(text.as_bytes()), Some(day));
    }
    Ok(())
}

#[test]
fn keys_are_whole_numbers(rt: HostRuntime) -> Result<(), Fail> {
    for (cell, key) in [
        ("-0012", Ok(-12)),
        ("+9223372036854775807", Ok(i64::MAX)),
        ("-9223372036854775809", Err(CellFault::WideInt)),
        ("", Err(CellFault::BadInt)),
    ] {
        assert_eq!(rt; read_key(cell.as_bytes()), key);
    }
    Ok(())
}

// What a cell is written back as, after another cell.
fn written(alloc: Global, kind: Kind, cell: &str) -> Result<Vec<u8>, NoMemory> {
    let mut texts = Texts::new(alloc);
    let mut out = b"x,".to_vec(alloc)?;
    if let Ok(value) = read_value(kind, cell.as_bytes(), &mut texts) {
        put_value(&value, &texts, &mut out)?;
    }
    Ok(out)
}

#[test]
fn cells_are_written_back(rt: HostRuntime) -> Result<(), Fail> {
    for (kind, cell, text) in [
        (Kind::Int, "+007", "x,7"),
        (Kind::Text, "a,b", "x,\"a,b\""),
        (Kind::Bool, "TRUE", "x,true"),
        (Kind::Date, "0999-10-09", "x,0999-10-09"),
        (Kind::Date, "", "x,"),
    ] {
        assert_eq!(rt;
            written(rt.alloc(), kind, cell)?.as_slice(),
            text.as_bytes()
        );
    }
    Ok(())
}

// The numbers that texts get, one after the other.
fn numbers(alloc: Global, words: &[&str]) -> Result<Vec<u32>, NoMemory> {
    let mut texts = Texts::new(alloc);
    let mut numbers = Vec::new(alloc);
    for word in words {
        if texts.len() < u32::MAX {
            numbers.push(texts.add(word.as_bytes())?)?;
        }
    }
    Ok(numbers)
}

#[test]
fn a_text_is_kept_once_and_keeps_its_number(rt: HostRuntime) -> Result<(), Fail> {
    let words = ["delta", "", "delta", "alpha", "", "alph"];
    let due: [u32; 6] = [0, 1, 0, 2, 1, 3];
    assert_eq!(rt; numbers(rt.alloc(), &words)?.as_slice(), due.as_slice());
    Ok(())
}

#[test]
fn texts_are_found_by_all_their_bytes(rt: HostRuntime) -> Result<(), Fail> {
    let mut texts = Texts::new(rt.alloc());
    texts.add(b"delta")?;
    texts.add(b"")?;
    texts.add(b"alpha")?;
    assert_eq!(rt; texts.find(b""), Some(1));
    assert_eq!(rt; texts.find(b"alpha"), Some(2));
    assert_eq!(rt; texts.find(b"alph"), None);
    assert_eq!(rt; texts.len(), 3);
    Ok(())
}

#[test]
fn a_cell_that_is_refused_leaves_no_text(rt: HostRuntime) {
    let mut texts = Texts::new(rt.alloc());
    let kind = Kind::Text;
    assert_eq!(rt;
        read_value(kind, b"\xc3\xa9", &mut texts),
        Ok(Value::Text(0))
    );
    assert_eq!(rt;
        read_value(kind, b"\xc3\x28", &mut texts),
        Err(CellFault::BadText)
    );
    assert_eq!(rt;
        read_value(kind, b"\xed\xa0\x80", &mut texts),
        Err(CellFault::BadText)
    );
    assert_eq!(rt; texts.len(), 1);
}

// Whether each value comes before the next.
fn rise(values: &[Value], texts: &Texts) -> bool {
    for i in 1..values.len() {
        if compare(&values[i - 1], &values[i], texts) != Ordering::Less
            || compare(&values[i], &values[i - 1], texts) != Ordering::Greater
            || compare(&values[i], &values[i], texts) != Ordering::Equal
        {
            return false;
        }
    }
    true
}

// Whether these values rise under the texts b, ab and a.
fn rise_by_texts(alloc: Global, values: &[Value]) -> Result<bool, NoMemory> {
    let mut texts = Texts::new(alloc);
    for text in ["b", "ab", "a"] {
        if texts.len() < u32::MAX {
            texts.add(text.as_bytes())?;
        }
    }
    Ok(texts.find(b"ab") == Some(1) && rise(values, &texts))
}

#[test]
fn values_are_in_order(rt: HostRuntime) -> Result<(), Fail> {
    let values = [
        Value::Int(i64::MIN),
        Value::Int(3),
        Value::Text(2),
        Value::Text(1),
        Value::Text(0),
        Value::Bool(false),
        Value::Bool(true),
        Value::Date(-1),
        Value::Date(0),
        Value::Null,
    ];
    assert!(rt; rise_by_texts(rt.alloc(), &values)?);
    Ok(())
}

#[test]
fn an_empty_text_stands_in_quotes(rt: HostRuntime) -> Result<(), Fail> {
    let mut out = Vec::new(rt.alloc());
    put_text(b"", &mut out)?;
    assert_eq!(rt; out.as_slice(), b"\"\"".as_slice());
    Ok(())
}
