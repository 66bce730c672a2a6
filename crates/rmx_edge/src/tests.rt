// The objects over the real outside.
use crate::{
    Counted, DirShelf, FailAt, FileInputs, Inputs, MemInputs, MemShelf, MemSink, Shelf, ShelfFault,
    Sink, StdSink, claims, write_three,
};
use std::fs;
use std::os::unix::fs::symlink;
use std::test::Fail;

#[test]
fn a_file_is_written(rt: HostRuntime) -> Result<(), Fail> {
    fs::write(&rt, "a.bin", "what was there is longer")?;
    let mut claims = claims(rt.alloc(), 1)?;
    let claim = claims.pop().ok_or("a claim")?;
    let mut shelf = Counted::new(DirShelf::new(rt.alloc(), rt.clone()?, claim));
    let created = shelf.create("a.bin");
    assert_eq!(rt; created, Ok(()));
    let written = shelf.write(b"abc");
    assert_eq!(rt; written, Ok(()));
    assert_eq!(rt; fs::metadata(&rt, "a.bin")?.len(), 0);
    let flushed = shelf.flush();
    assert_eq!(rt; flushed, Ok(()));
    assert_eq!(rt; fs::metadata(&rt, "a.bin")?.len(), 3);
    let written = shelf.write(b"de");
    assert_eq!(rt; written, Ok(()));
    let closed = shelf.close();
    assert_eq!(rt; closed, Ok(()));
    assert_eq!(rt; shelf.bytes(), 5);
    assert!(rt; shelf.into_inner().last_error().is_none());
    let text = fs::read_to_string(&rt, "a.bin")?;
    assert_eq!(rt; text.as_str(), "abcde");
    fs::remove_file(&rt, "a.bin")?;
    Ok(())
}

#[test]
fn a_file_is_read(rt: HostRuntime) -> Result<(), Fail> {
    fs::write(&rt, "b.bin", "abc")?;
    let mut claims = claims(rt.alloc(), 1)?;
    let claim = claims.pop().ok_or("a claim")?;
    let mut inputs = FileInputs::new(rt.clone()?, claim);
    let opened = inputs.open_input("b.bin");
    assert_eq!(rt; opened, Ok(()));
    let mut buf = [0u8; 4];
    let count = inputs.read(&mut buf);
    assert_eq!(rt; count, Ok(3));
    assert_eq!(rt; &buf[..3], b"abc".as_slice());
    let end = inputs.read(&mut buf);
    assert_eq!(rt; end, Ok(0));
    let missing = inputs.open_input("c.bin");
    assert!(rt; missing.is_err());
    assert!(rt; inputs.last_error().is_some());
    fs::remove_file(&rt, "b.bin")?;
    Ok(())
}

#[test]
fn what_a_run_has_open_is_safe(rt: HostRuntime) -> Result<(), Fail> {
    fs::write(&rt, "in.bin", "abc")?;
    symlink(&rt, "in.bin", "link.bin")?;
    let mut claims = claims(rt.alloc(), 3)?;
    let claim = claims.pop().ok_or("a claim")?;
    let mut inputs = FileInputs::new(rt.clone()?, claim);
    let opened = inputs.open_input("in.bin");
    assert_eq!(rt; opened, Ok(()));
    let claim = claims.pop().ok_or("a claim")?;
    let mut first = DirShelf::new(rt.alloc(), rt.clone()?, claim);
    let refused = first.create("in.bin");
    assert_eq!(rt; refused, Err(ShelfFault::Failed));
    let refused = first.create("link.bin");
    assert_eq!(rt; refused, Err(ShelfFault::Failed));
    assert_eq!(rt; first.fault_count(), 2);
    assert_eq!(rt; fs::metadata(&rt, "in.bin")?.len(), 3);
    let created = first.create("out.bin");
    assert_eq!(rt; created, Ok(()));
    let claim = claims.pop().ok_or("a claim")?;
    let mut second = DirShelf::new(rt.alloc(), rt.clone()?, claim);
    let refused = second.create("out.bin");
    assert_eq!(rt; refused, Err(ShelfFault::Failed));
    let closed = first.close();
    assert_eq!(rt; closed, Ok(()));
    let created = second.create("out.bin");
    assert_eq!(rt; created, Ok(()));
    for name in ["in.bin", "link.bin", "out.bin"] {
        fs::remove_file(&rt, name)?;
    }
    Ok(())
}

// Nothing is lost there, so several outputs of a run may have it open at a time.
#[test]
fn a_device_is_open_twice(rt: HostRuntime) -> Result<(), Fail> {
    let mut claims = claims(rt.alloc(), 2)?;
    let claim = claims.pop().ok_or("a claim")?;
    let mut first = DirShelf::new(rt.alloc(), rt.clone()?, claim);
    let created = first.create("/dev/null");
    assert_eq!(rt; created, Ok(()));
    let claim = claims.pop().ok_or("a claim")?;
    let mut second = DirShelf::new(rt.alloc(), rt.clone()?, claim);
    let created = second.create("/dev/null");
    assert_eq!(rt; created, Ok(()));
    let written = second.write(b"abc");
    assert_eq!(rt; written, Ok(()));
    let closed = second.close();
    assert_eq!(rt; closed, Ok(()));
    let closed = first.close();
    assert_eq!(rt; closed, Ok(()));
    assert_eq!(rt; (first.fault_count(), second.fault_count()), (0, 0));
    Ok(())
}

#[test]
fn a_report_is_printed(rt: HostRuntime) -> Result<(), Fail> {
    let mut sink = StdSink::new(rt.clone()?);
    let put = sink.write(b"done\n");
    assert_eq!(rt; put, Ok(()));
    assert!(rt; sink.last_error().is_none());
    Ok(())
}

#[test]
fn a_shelf_in_memory_fails_where_it_is_told(rt: HostRuntime) -> Result<(), Fail> {
    let fails = [FailAt { call: 3, keep: 2 }, FailAt { call: 5, keep: 0 }].to_vec(rt.alloc())?;
    let mut shelf = Counted::new(MemShelf::failing(rt.alloc(), fails));
    let created = shelf.create("a");
    assert_eq!(rt; created, Ok(()));
    let written = write_three(&mut shelf, b"ab", b"", b"c");
    assert_eq!(rt; written, Ok(()));
    let flushed = shelf.flush();
    assert_eq!(rt; flushed, Ok(()));
    let refused = shelf.write(b"xyz");
    assert_eq!(rt; refused, Err(ShelfFault::Failed));
    let created = shelf.create("b");
    assert_eq!(rt; created, Ok(()));
    let refused = shelf.close();
    assert_eq!(rt; refused, Err(ShelfFault::Failed));
    assert_eq!(rt;
        (shelf.bytes(), shelf.fault_count(), shelf.want_count()),
        (3, 2, 0)
    );
    let shelf = shelf.into_inner();
    assert_eq!(rt; shelf.take_count(), 2);
    assert_eq!(rt; shelf.take_name(0), "a");
    assert_eq!(rt; shelf.take_bytes(0), b"abcxy".as_slice());
    assert!(rt; !shelf.take_closed(0));
    Ok(())
}

#[test]
fn a_shelf_in_memory_closes_or_is_dead(rt: HostRuntime) -> Result<(), Fail> {
    let mut shelf = MemShelf::new(rt.alloc());
    let created = shelf.create("a");
    assert_eq!(rt; created, Ok(()));
    let closed = shelf.close();
    assert_eq!(rt; closed, Ok(()));
    assert_eq!(rt; shelf.take_count(), 1);
    assert!(rt; shelf.take_closed(0));
    let mut dead = MemShelf::dead(rt.alloc());
    let refused = dead.create("a");
    assert_eq!(rt; refused, Err(ShelfFault::Failed));
    Ok(())
}

#[test]
fn inputs_and_a_sink_in_memory(rt: HostRuntime) -> Result<(), Fail> {
    let file = (
        String::from_str(rt.alloc(), "in")?,
        b"abcde".to_vec(rt.alloc())?,
    );
    let files = vec![in rt.alloc(); file]?;
    let mut inputs = MemInputs::new(files, [3].to_vec(rt.alloc())?, 3);
    assert_eq!(rt; inputs.left(), 0);
    let opened = inputs.open_input("in");
    assert_eq!(rt; opened, Ok(()));
    let mut buf = [0u8; 4];
    let count = inputs.read(&mut buf);
    assert_eq!(rt; count, Ok(3));
    assert_eq!(rt; inputs.left(), 2);
    let count = inputs.read(&mut buf);
    assert_eq!(rt; count, Ok(2));
    assert_eq!(rt; &buf[..2], b"de".as_slice());
    let failed = inputs.read(&mut buf);
    assert!(rt; failed.is_err());
    let mut sink = MemSink::new([1].to_vec(rt.alloc())?);
    let put = sink.write(b"one");
    assert_eq!(rt; put, Ok(()));
    let failed = sink.write(b"two");
    assert!(rt; failed.is_err());
    assert_eq!(rt; sink.bytes(), b"one".as_slice());
    Ok(())
}
