//! Texts that are cut off, and calls of the outside that fail.

use crate::check_tests::begin_of;
use crate::runs::{Outside, check, report_of, text_of, told};
use log_checker::Checker;
use scheduler::Status;
use worked_projects::{TWO_IN_TURN, build};

/// More calls than any run of these tests makes.
const MANY_CALLS: u64 = 200;

#[test]
fn each_front_of_a_report_is_refused(rt: HostRuntime) {
    let project = text_of(&rt, &TWO_IN_TURN);
    let report = report_of(&rt, &project, "");
    let mut line = 1u32;
    for (length, byte) in report.iter().enumerate() {
        let front = &report[..length];
        let want = format!(in rt.alloc(); "report refused: line {line} reason 7\n").expect(
            &rt, "memory",
        );
        let want = (Status::ReportRefused, want.as_str());
        check(&rt, "check p r", &Outside::of(&project, front), want);
        if *byte == b'\n' {
            line = line.saturating_add(1);
        }
    }
}

/// Whether a text tells that a project has no such header line, no number where one is due, or an end too soon.
fn tells_a_cut(written: &[u8]) -> bool {
    written.starts_with(b"bad project: code 2 line ")
        || written.starts_with(b"bad project: code 3 line ")
        || written.starts_with(b"bad project: code 12 line ")
}

#[test]
fn each_front_of_a_project_is_refused_or_whole(rt: HostRuntime) {
    let project = text_of(&rt, &TWO_IN_TURN);
    let last_number = begin_of(&project, 34);
    for length in 0..project.len() {
        let (status, written) = told(&rt, "show p", &Outside::of(&project[..length], b""));
        if length <= last_number {
            assert_eq!(&rt; status, Status::BadProject);
            assert!(&rt; tells_a_cut(&written));
        } else {
            assert_eq!(&rt; status, Status::Done);
            assert_eq!(&rt; written.as_slice(), project.as_slice());
        }
    }
}

#[test]
fn each_call_of_the_shelf_may_fail(rt: HostRuntime) {
    let project = text_of(&rt, &TWO_IN_TURN);
    let report = report_of(&rt, &project, "");
    let mut unharmed = 0u64;
    for call in 1..MANY_CALLS {
        let failing = [call];
        let outside = Outside {
            failing_reads: &failing,
            step: 64,
            ..Outside::of(&project, &report)
        };
        let (status, written) = told(&rt, "check p r", &outside);
        if status == Status::Done {
            unharmed = call;
            break;
        }
        assert_eq!(&rt; status, Status::ReadFault);
        assert!(&rt; written.is_empty());
    }
    assert!(&rt; unharmed >= 20);
}

#[test]
fn each_call_of_the_sink_may_fail(rt: HostRuntime) {
    let project = text_of(&rt, &TWO_IN_TURN);
    let report = report_of(&rt, &project, "");
    let mut unharmed = 0u64;
    for call in 1..MANY_CALLS {
        let failing = [call];
        let outside = Outside {
            failing_writes: &failing,
            step: 3,
            ..Outside::of(&project, b"")
        };
        let (status, written) = told(&rt, "solve p", &outside);
        assert!(&rt; report.starts_with(&written));
        if status == Status::Done {
            unharmed = call;
            break;
        }
        assert_eq!(&rt; status, Status::WriteFault);
    }
    assert!(&rt; unharmed >= 20);
}

#[test]
fn a_report_that_is_absent_is_a_fault(rt: HostRuntime) {
    let project = text_of(&rt, &TWO_IN_TURN);
    let outside = Outside::of(&project, b"");
    check(&rt, "check p q", &outside, (Status::ReadFault, ""));
}

#[test]
fn what_was_refused_stays_refused(rt: HostRuntime) {
    let project = build(rt.alloc(), &TWO_IN_TURN).expect(&rt, "a project");
    let mut checker = Checker::new(rt.alloc(), &project);
    let refused = checker.feed(b"psplib-report 1\nverdict none\n");
    assert!(&rt; refused.is_err());
    for _ in 0..10 {
        assert!(&rt; checker.feed(b"x") == refused);
    }
    assert!(&rt; checker.finish().err() == refused.err());
}
