//! Projects that are printed: those that are read, and those that are made.

use crate::runs::{Outside, text_of, told};
use project_gen::make;
use project_net::print_project;
use scheduler::Status;
use std::process::Abort;
use worked_projects::SHORT_OR_CHEAP;

#[test]
fn a_canonical_text_is_shown_as_it_is(rt: HostRuntime) {
    let text = text_of(&rt, &SHORT_OR_CHEAP);
    let (status, shown) = told(&rt, "show p", &Outside::of(&text, b""));
    assert_eq!(rt; status, Status::Done);
    assert_eq!(rt; shown.as_slice(), text.as_slice());
}

/// The canonical text of the project of three jobs that is made from the seed 42.
fn least_made_text<R: Abort + AllocGlobal>(rt: &R) -> Vec<u8> {
    let project = make(rt.alloc(), 42, 3, 1).expect(rt, "memory");
    print_project(rt.alloc(), &project).expect(rt, "memory")
}

#[test]
fn the_least_made_project_is_printed(rt: HostRuntime) {
    let want = least_made_text(&rt);
    for words in [
        "make 42 3",
        "make 42 3 modes=1",
        "make 000000042 03 modes=01",
    ] {
        let (status, made) = told(&rt, words, &Outside::of(b"", b""));
        assert_eq!(rt; status, Status::Done);
        assert_eq!(rt; made.as_slice(), want.as_slice());
    }
}

#[test]
fn the_greatest_made_project_is_read_back(rt: HostRuntime) {
    let (_, made) = told(&rt, "make 5 128 modes=4", &Outside::of(b"", b""));
    let (status, shown) = told(&rt, "show p", &Outside::of(&made, b""));
    assert_eq!(rt; status, Status::Done);
    assert_eq!(rt; made.as_slice(), shown.as_slice());
}
