use puya_base::{
    At, Blob, FileFault, Files, List, MemoryFiles, MemorySink, Name, Sink, SinkFault, Value,
    split_off,
};
use std::test::Fail;

#[test]
fn bytes_grow_and_are_copied(rt: HostRuntime) -> Result<(), Fail> {
    let alloc = rt.alloc();
    let mut bytes = Blob::new(alloc);
    assert!(rt; bytes.is_empty());
    bytes.push(1)?;
    bytes.extend(&[2, 3, 4])?;
    assert_eq!(rt; bytes.as_slice(), [1, 2, 3, 4].as_slice());
    assert_eq!(rt; bytes.len(), 4);
    let copy = bytes.copy(alloc)?;
    if bytes.len() == 4 {
        bytes.replace(1, &[9, 9]);
    }
    assert_eq!(rt; bytes.as_slice(), [1, 9, 9, 4].as_slice());
    assert_eq!(rt; copy.as_slice(), [1, 2, 3, 4].as_slice());
    assert!(rt; bytes != copy);
    bytes.clear();
    assert_eq!(rt; bytes.as_slice(), [].as_slice());
    assert_eq!(rt; Name::new(alloc, "budget")?.as_str(), "budget");
    let value = Value::Bytes(copy);
    assert!(rt; value.copy(alloc)? == value);
    assert!(rt; Value::Int(4) != value);
    Ok(())
}

#[test]
fn a_list_is_read_written_and_cut(rt: HostRuntime) -> Result<(), Fail> {
    let alloc = rt.alloc();
    let mut list = List::new(alloc);
    for n in 0..5u64 {
        list.push(n)?;
    }
    assert_eq!(rt; list.len(), 5);
    list.set(3, 30);
    assert_eq!(rt; *list.at(3), 30);
    let tail = split_off(alloc, &mut list, 2)?;
    assert_eq!(rt; list.as_slice(), [0, 1].as_slice());
    assert_eq!(rt; tail.as_slice(), [2, 30, 4].as_slice());
    Ok(())
}

#[test]
fn files_in_memory_fail_where_they_are_told_to(rt: HostRuntime) -> Result<(), Fail> {
    let alloc = rt.alloc();
    let mut files = MemoryFiles::new(alloc);
    files.add("a", b"first")?;
    files.add("a", b"second")?;
    files.fail_at(2)?;
    files.fail_at(4)?;
    files.fail_at(5)?;
    let mut into = Blob::new(alloc);
    assert_eq!(rt; files.read("a", &mut into), Ok(()));
    assert_eq!(rt; into.as_slice(), b"second".as_slice());
    assert_eq!(rt; files.read("a", &mut into), Err(FileFault::Failed));
    assert_eq!(rt; into.as_slice(), b"".as_slice());
    assert_eq!(rt; files.write("b", b"12345"), Ok(()));
    assert_eq!(rt; files.write("b", b"67890"), Err(FileFault::Failed));
    assert_eq!(rt; files.get("b").ok_or("b")?, b"67".as_slice());
    assert_eq!(rt; files.read("c", &mut into), Err(FileFault::Missing));
    assert!(rt; files.get("c").is_none());
    Ok(())
}

#[test]
fn a_long_file_is_refused_even_where_the_call_is_to_fail(rt: HostRuntime) -> Result<(), Fail> {
    let alloc = rt.alloc();
    let mut files = MemoryFiles::new(alloc);
    let longest = vec![in alloc; 7u8; 1048576]?;
    files.add("longest", longest.as_slice())?;
    let longer = vec![in alloc; 7u8; 1048577]?;
    files.add("longer", longer.as_slice())?;
    files.fail_at(2)?;
    let mut into = Blob::new(alloc);
    assert_eq!(rt; files.read("longest", &mut into), Ok(()));
    assert_eq!(rt; into.len(), 1048576);
    assert_eq!(rt; files.read("longer", &mut into), Err(FileFault::TooLong));
    assert_eq!(rt; into.len(), 0);
    Ok(())
}

#[test]
fn a_sink_keeps_the_first_half_of_a_put_that_fails(rt: HostRuntime) -> Result<(), Fail> {
    let mut sink = MemorySink::new(rt.alloc());
    sink.fail_at(2)?;
    assert_eq!(rt; sink.put(b"one "), Ok(()));
    assert_eq!(rt; sink.put(b"seven"), Err(SinkFault::Failed));
    assert_eq!(rt; sink.put(b"!"), Ok(()));
    assert_eq!(rt; sink.bytes(), b"one se!".as_slice());
    Ok(())
}
