//! Texts with a calendar: those that are read, and on which line others are refused.

use crate::canonical::{ONE_RESOURCE, Worked, canonical_text, check_canonical, check_printed};
use psplib_reader::{Fault, ReadError, Refusal, read_project};
use std::alloc::{AllocError, Global};
use std::process::Abort;

/// As `ONE_RESOURCE`, with less of the resource in the first two periods.
const SLOW_START: Worked<'static> = Worked {
    horizon: 7,
    calendar: "1\n1 0 2 1\n",
    ..ONE_RESOURCE
};

/// One job of three periods, and nothing of its resource in the third.
const ONE_BREAK: Worked<'static> = Worked {
    counts: (1, 1, 0),
    horizon: 6,
    precedence: "1 1 0\n",
    heading: "jobnr. mode duration R 1",
    modes: "1 1 3 1\n",
    amounts: "R 1\n1\n",
    calendar: "1\n1 2 3 0\n",
};

/// A number of rows, and so many of a period each.
fn short_rows(alloc: Global, count: u16) -> Result<String, AllocError> {
    let mut rows = format!(in alloc; "{count}\n")?;
    for begin in 0..count {
        let until = begin + 1;
        let row = format!(in alloc; "1 {begin} {until} 0\n")?;
        rows.push_str(row.as_str())?;
    }
    Ok(rows)
}

/// So many bytes of a text, from its first on.
fn front(text: &[u8], bytes: usize) -> &[u8] {
    if bytes < text.len() {
        &text[..bytes]
    } else {
        text
    }
}

fn check_refused<R: Abort + AllocGlobal>(rt: &R, text: &[u8], fault: Fault, line: u32) {
    let error = read_project(rt.alloc(), text).err();
    let wanted = Refusal { fault, line };
    assert_eq!(rt; error, Some(ReadError::Refused(wanted)), "line {line}");
}

#[test]
fn calendars_are_read_and_printed(rt: HostRuntime) {
    check_canonical(&rt, &SLOW_START);
    check_canonical(&rt, &ONE_BREAK);
    let no_rows = Worked {
        calendar: "0\n",
        ..ONE_RESOURCE
    };
    let text = canonical_text(rt.alloc(), &no_rows).expect(&rt, "memory");
    let canonical = canonical_text(rt.alloc(), &ONE_RESOURCE).expect(&rt, "memory");
    check_printed(&rt, text.as_bytes(), canonical.as_str());
}

/// Calendars that are refused: the fault, and its line.
const REFUSED: &[(&str, Fault, u32)] = &[
    ("1\n1 2 2 1\n", Fault::CalendarOrder, 39),
    ("1\n1 0 2 4\n", Fault::OutOfLimit, 39),
    ("1\n2 0 2 1\n", Fault::OutOfLimit, 39),
    ("257\n1 0 2 1\n", Fault::OutOfLimit, 38),
    ("2\n1 0 2 1\n1 1 3 1\n", Fault::CalendarOrder, 40),
];

/// Compares what a text with a calendar is refused for.
fn check_calendar<R: Abort + AllocGlobal>(rt: &R, calendar: &str, fault: Fault, line: u32) {
    let worked = Worked {
        calendar,
        ..SLOW_START
    };
    let text = canonical_text(rt.alloc(), &worked).expect(rt, "memory");
    check_refused(rt, text.as_bytes(), fault, line);
}

#[test]
fn rows_out_of_limit_or_order_are_refused(rt: HostRuntime) {
    for (calendar, fault, line) in REFUSED {
        check_calendar(&rt, calendar, *fault, *line);
    }
}

#[test]
fn the_most_rows_are_read(rt: HostRuntime) {
    let rows = short_rows(rt.alloc(), 256).expect(&rt, "memory");
    let most = Worked {
        horizon: 261,
        calendar: rows.as_str(),
        ..ONE_RESOURCE
    };
    check_canonical(&rt, &most);
    let rows = short_rows(rt.alloc(), 257).expect(&rt, "memory");
    let too_many = Worked {
        calendar: rows.as_str(),
        ..ONE_RESOURCE
    };
    let text = canonical_text(rt.alloc(), &too_many).expect(&rt, "memory");
    check_refused(&rt, text.as_bytes(), Fault::OutOfLimit, 38);
}

/// How many bytes are kept of the calendar's part: the fault, and its line.
const CUT: &[(usize, Fault, u32)] = &[
    (4, Fault::WordsLeft, 36),
    (9, Fault::TextEnds, 36),
    (20, Fault::TextEnds, 37),
    (37, Fault::TextEnds, 38),
    (41, Fault::TextEnds, 39),
    (43, Fault::TextEnds, 39),
    (45, Fault::TextEnds, 39),
    (2891, Fault::TextEnds, 294),
];

#[test]
fn calendars_that_are_cut_are_refused(rt: HostRuntime) {
    let rows = short_rows(rt.alloc(), 256).expect(&rt, "memory");
    let most = Worked {
        calendar: rows.as_str(),
        ..ONE_RESOURCE
    };
    let text = canonical_text(rt.alloc(), &most).expect(&rt, "memory");
    let before = canonical_text(rt.alloc(), &ONE_RESOURCE).expect(&rt, "memory");
    for (bytes, fault, line) in CUT {
        let kept = before.len().saturating_add(*bytes);
        check_refused(&rt, front(text.as_bytes(), kept), *fault, *line);
    }
}
