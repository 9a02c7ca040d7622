//! Each public call once on its happy path, and what the sentences on devices say of refusals.

use ep_base::{
    FileError, Files, MemFiles, MemSink, Memory, Name, Place, PutError, Run, Runs, Word, put_all,
};
use std::alloc::Global;
use std::collections::HashMap;
use std::test::Fail;

#[test]
fn names_and_words_are_read_back(rt: HostRuntime) -> Result<(), Fail> {
    for text in ["", "x", "queen", "fl\u{e4}che"] {
        let name = Name::new(rt.alloc(), text)?;
        let word = Word::new(rt.alloc(), text)?;
        assert_eq!(rt; name.text(), text);
        assert_eq!(rt; word.text(), text);
        assert!(rt; name == Name::new(rt.alloc(), text)?);
        assert!(rt; name != Name::new(rt.alloc(), "y")?);
        let shown = format!(in rt.alloc(); "{name} {word}")?;
        assert_eq!(rt; shown.len(), 2 * text.len() + 1);
    }
    let mut numbers = HashMap::new(rt.alloc());
    numbers.insert(Name::new(rt.alloc(), "x")?, 3u8)?;
    let asked = Name::new(rt.alloc(), "x")?;
    assert_eq!(rt; numbers.get(&asked).copied(), Some(3));
    Ok(())
}

#[test]
fn files_in_memory_fail_where_they_are_told_to(rt: HostRuntime) -> Result<(), Fail> {
    let alloc = rt.alloc();
    let mut files = MemFiles::new(alloc, vec![in alloc; 3, 5]?);
    assert!(rt; files.read(alloc, "a", 9)?.is_none(), "call one");
    files.hold("a", b"hello")?;
    files.hold("b", b"old")?;
    files.hold("a", b"hello!")?;
    let first = files.read(alloc, "a", 3)?;
    let Some(bytes) = first else {
        panic!(rt; "a held name is missing");
    };
    assert_eq!(rt; bytes.as_slice(), b"hel".as_slice());
    assert!(rt;
        matches!(files.read(alloc, "a", 3), Err(FileError::Failed)),
        "call 3"
    );
    files.write("b", b"new")?;
    assert!(rt;
        matches!(files.write("a", b"lost"), Err(FileError::Failed)),
        "call 5"
    );
    assert_eq!(rt; files.get("a"), Some(b"hello!".as_slice()));
    assert_eq!(rt; files.get("b"), Some(b"new".as_slice()));
    assert_eq!(rt; files.get("c"), None);
    Ok(())
}

fn numbers(alloc: Global, one: Option<u64>) -> Result<Vec<u64>, Memory> {
    let mut list = Vec::new(alloc);
    if let Some(number) = one {
        list.push(number)?;
    }
    Ok(list)
}

#[test]
fn all_bytes_are_put_or_a_first_part(rt: HostRuntime) -> Result<(), Fail> {
    let alloc = rt.alloc();
    let rows = [
        (1, None, Ok(()), "abc"),
        (2, None, Ok(()), "abc"),
        (9, None, Ok(()), "abc"),
        (1, Some(2), Err(PutError::Failed), "a"),
        (2, Some(2), Err(PutError::Failed), "ab"),
        (9, Some(2), Ok(()), "abc"),
        (9, Some(1), Err(PutError::Failed), ""),
    ];
    for (most, fails, want, taken) in rows {
        let mut sink = MemSink::new(alloc, most, numbers(alloc, fails)?);
        let answer = put_all(&mut sink, b"abc");
        assert_eq!(rt; answer, want, "{most}, {taken}");
        assert_eq!(rt; sink.taken(), taken.as_bytes(), "{most}, {taken}");
    }
    Ok(())
}

#[test]
fn runs_have_the_numbers_of_their_parts(rt: HostRuntime) -> Result<(), Fail> {
    let alloc = rt.alloc();
    let parts = [
        (3, 5),
        (i64::MAX, i64::MAX),
        (9, 8),
        (i64::MIN, i64::MIN + 1),
        (6, 6),
        (4, 5),
        (8, 8),
        (i64::MAX - 1, i64::MAX),
    ];
    let mut list = Vec::new(alloc);
    for (lo, hi) in parts {
        list.push(Run { lo, hi })?;
    }
    let set = Runs::new(alloc, list)?;
    let want = [
        Run {
            lo: i64::MIN,
            hi: i64::MIN + 1,
        },
        Run { lo: 3, hi: 6 },
        Run { lo: 8, hi: 8 },
        Run {
            lo: i64::MAX - 1,
            hi: i64::MAX,
        },
    ];
    assert_eq!(rt; set.runs(), want.as_slice());
    for number in [i64::MIN, i64::MIN + 1, 3, 6, 8, i64::MAX - 1, i64::MAX] {
        assert!(rt; set.has(number), "{number}");
    }
    for number in [i64::MIN + 2, 2, 7, 9, i64::MAX - 2] {
        assert!(rt; !set.has(number), "{number}");
    }
    Ok(())
}

#[test]
fn answers_are_printed(rt: HostRuntime) -> Result<(), Fail> {
    let place = Place { line: 2, column: 8 };
    let shown = format!(in rt.alloc();
        "{place:?} {Memory} {} {}",
        FileError::Memory,
        PutError::Memory
    )?;
    assert_eq!(rt;
        shown.as_str(),
        "Place { line: 2, column: 8 } memory memory memory"
    );
    Ok(())
}
