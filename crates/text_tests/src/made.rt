//! Projects that are made from a seed.

ghost use Rattle.std.specs.Prelude.{◌≤◌};

use project_gen::make;
use project_net::print_project;
use sched_base::NoMemory;
use std::alloc::Global;
use std::test::Fail;

/// The project of seed 42, worked out by hand from the first five words of the generator: a15c02b7, 7b47f409, ba1d3330,
/// 83d2f293 and bfa4784b.
const LEAST: &str = "************************************************************************
file with basedata            :  -
initial value random generator:  0
************************************************************************
projects                      :  1
jobs (incl. supersource/sink ):  3
horizon                       :  5
RESOURCES
  - renewable                 :  2   R
  - nonrenewable              :  0   N
  - doubly constrained        :  0   D
************************************************************************
PROJECT INFORMATION:
pronr.  #jobs rel.date duedate tardcost  MPM-Time
1 3 0 0 0 0
************************************************************************
PRECEDENCE RELATIONS:
jobnr.    #modes  #successors   successors
1 1 1 2
2 1 1 3
3 1 0
************************************************************************
REQUESTS/DURATIONS:
jobnr. mode duration R 1 R 2
------------------------------------------------------------------------
1 1 0 0 0
2 1 5 1 1
3 1 0 0 0
************************************************************************
RESOURCEAVAILABILITIES:
R 1 R 2
8 8
************************************************************************
";

/// The text of a made project.
fn text(alloc: Global, seed: u64, jobs: u8, modes: u8) -> Result<Vec<u8>, NoMemory>
    requires some { 3 ≤ jobs }
    requires few { jobs ≤ 128 }
    requires some_mode { 1 ≤ modes }
    requires few_modes { modes ≤ 4 }
{
    let project = make(alloc, seed, jobs, modes)?;
    print_project(alloc, &project)
}

/// The checksum FNV-1a, of 64 bits.
fn checksum(text: &[u8]) -> u64 {
    let mut sum: u64 = 0xcbf2_9ce4_8422_2325;
    for byte in text {
        sum = (sum ^ u64::from(*byte)).wrapping_mul(0x0100_0000_01b3);
    }
    sum
}

#[test]
fn the_least_project(rt: HostRuntime) -> Result<(), Fail> {
    let text = text(rt.alloc(), 42, 3, 1)?;
    assert_eq!(rt; text.as_slice(), LEAST.as_bytes());
    Ok(())
}

/// The checksum of the text of a made project.
fn sum_of(alloc: Global, seed: u64, jobs: u8, modes: u8) -> Result<u64, NoMemory>
    requires some { 3 ≤ jobs }
    requires few { jobs ≤ 128 }
    requires some_mode { 1 ≤ modes }
    requires few_modes { modes ≤ 4 }
{
    let text = text(alloc, seed, jobs, modes)?;
    Ok(checksum(&text))
}

/// The checksums are those of the texts that another program makes.
#[test]
fn projects_of_each_size(rt: HostRuntime) -> Result<(), Fail> {
    let alloc = rt.alloc();
    assert_eq!(rt; sum_of(alloc, 1, 20, 1)?, 0x28d0_5120_ae97_016e);
    assert_eq!(rt; sum_of(alloc, 1, 20, 4)?, 0xd922_c47d_d53a_63f3);
    assert_eq!(rt; sum_of(alloc, 7, 30, 3)?, 0xd05c_9fe6_9a4c_56c4);
    assert_eq!(rt; sum_of(alloc, 999_999_999, 64, 2)?, 0xbcab_8133_8e96_1f5f);
    assert_eq!(rt; sum_of(alloc, 2, 128, 4)?, 0x2965_823b_78ff_0df4);
    Ok(())
}
