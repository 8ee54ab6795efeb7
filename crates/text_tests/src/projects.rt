//! Texts that are read as projects, and those that are refused as none.

ghost use Rattle.rcpsp_model.specs.Project.{IsJob, IsMode};

use project_net::Project;
use psplib_reader::{Fault, ReadError, Refusal, read_project};
use std::alloc::{AllocError, Global};
use std::process::Abort;
use std::test::Fail;

/// Four jobs, two of which have two modes, in the usual layout.
const TEXT: &[u8] = b"************************************************************************
file with basedata            :  -
initial value random generator:  0
************************************************************************
projects                      :  1
jobs (incl. supersource/sink ):  4
horizon                       :  8
RESOURCES
  - renewable                 :  1   R
  - nonrenewable              :  1   N
  - doubly constrained        :  0   D
************************************************************************
PROJECT INFORMATION:
pronr.  #jobs rel.date duedate tardcost  MPM-Time
1 4 0 0 0 0
************************************************************************
PRECEDENCE RELATIONS:
jobnr.    #modes  #successors   successors
1 1 2 2 3
2 2 1 4
3 2 1 4
4 1 0
************************************************************************
REQUESTS/DURATIONS:
jobnr. mode duration R 1 N 1
------------------------------------------------------------------------
1 1 0 0 0
2 1 2 1 3
2 4 1 1
3 1 2 1 3
2 4 1 1
4 1 0 0 0
************************************************************************
RESOURCEAVAILABILITIES:
R 1 N 1
2 4
************************************************************************
";

/// The text with another line of this number.
fn edited(alloc: Global, line: usize, new: &[u8]) -> Result<Vec<u8>, AllocError> {
    let mut text = Vec::new(alloc);
    for (index, old) in TEXT.split(|byte| *byte == b'\n').enumerate() {
        let kept = if index == line.saturating_sub(1) {
            new
        } else {
            old
        };
        text.extend_from_slice(kept)?;
        text.push(b'\n')?;
    }
    Ok(text)
}

/// Appends the duration, the requests and the needs of a mode.
fn append_mode(
    numbers: &mut Vec<u128>,
    project: &Project,
    job: u8,
    mode: u8,
) -> Result<(), AllocError>
    requires job { IsJob project.now job }
    requires mode { IsMode project.now job mode }
{
    numbers.push(u128::from(project.duration(job, mode)))?;
    for resource in 1..project.renewables() + 1 {
        numbers.push(u128::from(project.request(job, mode, resource)))?;
    }
    for resource in 1..project.nonrenewables() + 1 {
        numbers.push(u128::from(project.need(job, mode, resource)))?;
    }
    Ok(())
}

/// For each job its modes and the set of its successors; then the capacities and the budgets.
fn numbers_of(alloc: Global, project: &Project) -> Result<Vec<u128>, AllocError> {
    let mut numbers = Vec::new(alloc);
    for job in 1..project.jobs() + 1 {
        for mode in 1..project.modes(job) + 1 {
            append_mode(&mut numbers, project, job, mode)?;
        }
        numbers.push(project.succs(job).0)?;
    }
    for resource in 1..project.renewables() + 1 {
        numbers.push(u128::from(project.capacity(resource)))?;
    }
    for resource in 1..project.nonrenewables() + 1 {
        numbers.push(u128::from(project.budget(resource)))?;
    }
    Ok(numbers)
}

/// The numbers of the project that a text is.
fn numbers_read(alloc: Global, text: &[u8]) -> Result<Vec<u128>, Fail> {
    let project = read_project(alloc, text)?;
    Ok(numbers_of(alloc, &project)?)
}

#[test]
fn reads_the_usual_layout(rt: HostRuntime) -> Result<(), Fail> {
    let wanted: &[u128] = &[
        0, 0, 0, 0b0110, 2, 1, 3, 4, 1, 1, 0b1000, 2, 1, 3, 4, 1, 1, 0b1000, 0, 0, 0, 0, 2, 4,
    ];
    let numbers = numbers_read(rt.alloc(), TEXT)?;
    assert_eq!(rt; numbers.as_slice(), wanted);
    Ok(())
}

/// A line of the text gives way to another: the fault, and its line.
type Edit = (usize, &'static [u8], Fault, u32);

const CYCLES: &[Edit] = &[
    (21, b"3 2 1 3", Fault::Cycle, 21),
    (22, b"4 1 1 2", Fault::Cycle, 20),
    (21, b"3 2 2 4\n1", Fault::Cycle, 19),
    (21, b"3 2 2 3 5", Fault::SuccessorOutOfRange, 21),
];

/// Compares what the text with an edit is refused for.
fn compare_refusal(rt: &impl Abort, alloc: Global, edit: &Edit) -> Result<(), AllocError> {
    let (line, new, fault, at) = *edit;
    let text = edited(alloc, line, new)?;
    let wanted = Refusal { fault, line: at };
    let error = read_project(alloc, &text).err();
    assert_eq!(rt; error, Some(ReadError::Refused(wanted)), "line {line}");
    Ok(())
}

#[test]
fn refuses_cycles(rt: HostRuntime) -> Result<(), Fail> {
    for edit in CYCLES {
        compare_refusal(&rt, rt.alloc(), edit)?;
    }
    Ok(())
}
