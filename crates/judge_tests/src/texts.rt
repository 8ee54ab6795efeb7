//! The text of a report, and what its lines say.

ghost use Rattle.std.specs.Prelude.{◌≡◌, Some};

use project_net::Schedule;
use proof_log::{
    LogLine, LogWords, Report, ReportLine, Verdict, lines_of, parse_line, write_report,
};
use rcpsp_model::Placing;
use sched_base::{Fate, List, SureSink};
use std::test::Fail;

/// A line of the log that isn't the root's.
fn node(job: u32, mode: u32, start: Option<u32>, letter: u8, number: u32) -> ReportLine {
    ReportLine::Log(LogWords {
        job: Some(job),
        mode: Some(mode),
        start,
        letter,
        number,
    })
}

fn root(letter: u8, number: u32) -> ReportLine {
    ReportLine::Log(LogWords {
        job: None,
        mode: None,
        start: None,
        letter,
        number,
    })
}

#[test]
fn fixed_lines(rt: HostRuntime) -> Result<(), Fail> {
    let rows = [
        (b"psplib-report 1".as_slice(), ReportLine::Title),
        (b"verdict optimal".as_slice(), ReportLine::Optimal),
        (b"verdict infeasible".as_slice(), ReportLine::Infeasible),
        (b"verdict limit".as_slice(), ReportLine::Limit),
        (b"duration 5".as_slice(), ReportLine::Duration(Some(5))),
        (b"duration -".as_slice(), ReportLine::Duration(None)),
        (b"lower 0".as_slice(), ReportLine::Lower(Some(0))),
        (
            b"lower 999999999".as_slice(),
            ReportLine::Lower(Some(999_999_999)),
        ),
        (b"job 3 1 3".as_slice(), ReportLine::Job(3, 1, 3)),
        (b"log yes".as_slice(), ReportLine::LogYes),
        (b"log no".as_slice(), ReportLine::LogNo),
        (b"end".as_slice(), ReportLine::End),
    ];
    for (text, line) in rows {
        assert_eq!(rt; parse_line(text), Some(line));
    }
    Ok(())
}

#[test]
fn lines_of_a_log(rt: HostRuntime) -> Result<(), Fail> {
    let rows = [
        (b"- - - E".as_slice(), root(b'E', 0)),
        (b"- - - O 4".as_slice(), root(b'O', 4)),
        (b"- - - N 1".as_slice(), root(b'N', 1)),
        (b"1 1 0 E".as_slice(), node(1, 1, Some(0), b'E', 0)),
        (b"3 1 3 T".as_slice(), node(3, 1, Some(3), b'T', 0)),
        (b"5 1 3 L".as_slice(), node(5, 1, Some(3), b'L', 0)),
        (b"2 1 0 C 4".as_slice(), node(2, 1, Some(0), b'C', 4)),
        (b"3 1 - N 1".as_slice(), node(3, 1, None, b'N', 1)),
        (b"2 1 - X 1".as_slice(), node(2, 1, None, b'X', 1)),
        (b"2 2 - M 1".as_slice(), node(2, 2, None, b'M', 1)),
        (b"4 1 0 W 2".as_slice(), node(4, 1, Some(0), b'W', 2)),
    ];
    for (text, line) in rows {
        assert_eq!(rt; parse_line(text), Some(line));
    }
    Ok(())
}

#[test]
fn other_bytes_are_no_line(rt: HostRuntime) -> Result<(), Fail> {
    let rows = [
        b"duration  5".as_slice(),
        b"duration +1".as_slice(),
        b"duration 01".as_slice(),
        b"duration 1234567890".as_slice(),
        b"end ".as_slice(),
        b"".as_slice(),
        b"1 1 0 C".as_slice(),
        b"1 1 0 E 1".as_slice(),
        b"1 1 - E".as_slice(),
        b"1 1 0 X 1".as_slice(),
        b"- 1 0 E".as_slice(),
        b"1 1 0 Q".as_slice(),
        [b'e'; 64].as_slice(),
        [b'e'; 65].as_slice(),
    ];
    for text in rows {
        assert_eq!(rt; parse_line(text), None);
    }
    Ok(())
}

const SOLVED: &[u8] =
    b"psplib-report 1\nverdict optimal\nduration 5\nlower 5\njob 1 1 0\njob 2 1 0\njob 3 1 3\njob 4 1 5\nlog yes\n- - - E\n1 1 0 E\n2 1 0 E\n3 1 3 T\n3 1 0 E\n2 1 2 T\nend\n";

fn place(start: u32) -> Placing
    ensures { result ≡ record { mode = 1; start = start } }
{
    Placing { mode: 1, start }
}

fn line(job: u8, start: u32, fate: Fate) -> LogLine
    ensures { result ≡ record { job = job; mode = 1; start = Some start; fate = fate } }
{
    LogLine {
        job,
        mode: 1,
        start: Some(start),
        fate,
    }
}

#[test]
fn report_as_text(rt: HostRuntime) -> Result<(), Fail> {
    let alloc = rt.alloc();
    let places = vec![in alloc; place(0), place(0), place(3), place(5)]?;
    let root = LogLine {
        job: 0,
        mode: 0,
        start: None,
        fate: Fate::Expanded,
    };
    let log = vec![in alloc;
        root,
        line(1, 0, Fate::Expanded),
        line(2, 0, Fate::Expanded),
        line(3, 3, Fate::TailBound),
        line(3, 0, Fate::Expanded),
        line(2, 2, Fate::TailBound),
    ]?;
    let report = Report {
        verdict: Verdict::Optimal { duration: 5 },
        best: Some(Schedule::new(List::from_vec(places))),
        log: Some(List::from_vec(log)),
    };
    let mut out = SureSink::new(alloc, 65_536)?;
    write_report(&mut out, &report)?;
    assert_eq!(rt; out.bytes(), SOLVED);
    Ok(())
}

#[test]
fn lines_in_any_pieces(rt: HostRuntime) -> Result<(), Fail> {
    let alloc = rt.alloc();
    for cut in [0usize, 1, 15, 16, 17, 40] {
        let (front, back) = SOLVED.split_at(cut.min(SOLVED.len()));
        let pieces = vec![in alloc; front.to_vec(alloc)?, back.to_vec(alloc)?]?;
        let lines = lines_of(alloc, &pieces)?;
        assert_eq!(rt; lines.len(), 16);
    }
    let long = vec![in alloc;
        b"end\n".to_vec(alloc)?,
        [b'e'; 65].to_vec(alloc)?,
        b"\nend\n".to_vec(alloc)?,
    ]?;
    assert_eq!(rt; lines_of(alloc, &long)?.len(), 1);
    Ok(())
}
