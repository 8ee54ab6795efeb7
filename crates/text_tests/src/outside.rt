//! Lists, a sink that takes pieces and fails where it is told to, and a shelf of texts.

use sched_base::{Failed, List, MemShelf, MemSink, Shelf, Sink, write_whole};
use std::alloc::{AllocError, Global};

fn text_of(alloc: Global, text: &str) -> Result<Vec<u8>, AllocError> {
    let mut bytes = Vec::new(alloc);
    bytes.extend_from_slice(text.as_bytes())?;
    Ok(bytes)
}

fn named(alloc: Global, name: &str, text: &str) -> Result<(String, Vec<u8>), AllocError> {
    Ok((String::from_str(alloc, name)?, text_of(alloc, text)?))
}

#[test]
fn a_list_takes_an_item(rt: HostRuntime) {
    let mut list = List::new(rt.alloc());
    assert!(rt; list.push(7u32).is_ok());
    assert_eq!(rt; list.as_slice(), [7u32].as_slice());
}

#[test]
fn a_sink_takes_pieces_and_fails_where_told(rt: HostRuntime) {
    let failing = vec![in rt.alloc(); 3].expect(&rt, "memory");
    let mut sink = MemSink::new(rt.alloc(), 8, failing, 3).expect(&rt, "memory");
    assert_eq!(rt; write_whole(&mut sink, b"four"), Ok(()));
    assert_eq!(rt; write_whole(&mut sink, b"five"), Err(Failed));
    assert_eq!(rt; write_whole(&mut sink, b"five"), Ok(()));
    assert_eq!(rt; write_whole(&mut sink, b"x"), Err(Failed));
    assert_eq!(rt; sink.bytes(), b"fourfive".as_slice());
}

#[test]
fn a_shelf_gives_the_first_text_of_a_name(rt: HostRuntime) {
    let first = named(rt.alloc(), "a", "first").expect(&rt, "memory");
    let second = named(rt.alloc(), "a", "second").expect(&rt, "memory");
    let texts = vec![in rt.alloc(); first, second].expect(&rt, "memory");
    let failing = vec![in rt.alloc(); 3].expect(&rt, "memory");
    let mut shelf = MemShelf::new(texts, failing, 4);
    let mut front = [0u8; 8];
    let mut rest = [0u8; 8];
    assert_eq!(rt; shelf.begin("a"), Ok(()));
    assert_eq!(rt; shelf.read(&mut front), Ok(4));
    assert_eq!(rt; shelf.read(&mut rest), Err(Failed));
    assert_eq!(rt; shelf.read(&mut rest), Ok(1));
    assert_eq!(rt; &front[..4], b"firs".as_slice());
    assert_eq!(rt; rest[0], b't');
    assert_eq!(rt; shelf.begin("b"), Err(Failed));
}
