ghost use Rattle.std.specs.Prelude.{◌≡◌, ◌⊎◌, Ok, Err, IfOk};
ghost use Rattle.rcpsp_model.specs.Project.{Project as ProjectValue};
ghost use Rattle.psplib_layout.specs.declared.fault.Refusal.{Refusal as FirstRefusal};
ghost use Rattle.psplib_layout.specs.declared.fault.ReadError.TheVariants as errors;
ghost use Rattle.psplib_layout.specs.Text.{Reads, IsFirstRefusal};

use crate::cycle::line_of_job;
use crate::drafting::draft_of;
use project_net::{BuildRefusal, Project};
use psplib_layout::{Fault, ReadError, Refusal, Source};
use std::alloc::Global;

/// The project that a text in the layout of PSPLIB (Kolisch and Sprecher 1997) is.
///
/// # Errors
///
/// [`ReadError::Refused`] with the first rule that the text breaks and its line, exactly where it is no project; a cycle
/// is judged after all else, and has the line of the lowest job on one. [`ReadError::NoMemory`] where memory was refused.
pub fn read_project(alloc: Global, text: &[u8]) -> Result<Project, ReadError>
    // What comes back is the project that the text is, or its first refusal.
    ensures ok { IfOk result (λ p. Reads text.now p) }
    ensures refused { (f : FirstRefusal) → result ≡ Err (errors.Refused f) → IsFirstRefusal text.now f }

    // Each text that is a project is read, and each other one refused, unless memory was.
    ensures if_project { (P : ProjectValue) → Reads text.now P → (result ≡ Ok P) ⊎ (result ≡ Err errors.NoMemory) }
    ensures if_refused { (f : FirstRefusal) → IsFirstRefusal text.now f → (result ≡ Err (errors.Refused f)) ⊎ (result ≡ Err errors.NoMemory) }
{
    judged(alloc, text)
}

/// The project that a text is, or its first refusal.
fn judged(alloc: Global, text: &[u8]) -> Result<Project, ReadError>
    ensures ok { IfOk result (λ p. Reads text.now p) }
    ensures refused { (f : FirstRefusal) → result ≡ Err (errors.Refused f) → IsFirstRefusal text.now f }
{
    let source = Source::new(alloc, text)?;
    let content = source.content(alloc)?;
    let draft = draft_of(alloc, content)?;
    match Project::build(alloc, draft) {
        Ok(project) => Ok(project),
        Err(BuildRefusal::Cycle { job }) => {
            let line = line_of_job(alloc, &source, job)?;
            Err(ReadError::Refused(Refusal {
                fault: Fault::Cycle,
                line,
            }))
        }
        Err(BuildRefusal::NoMemory) => Err(ReadError::NoMemory),
        Err(BuildRefusal::OutOfLimit { .. } | BuildRefusal::SuccessorOutOfRange { .. }) => {
            unreachable!()
        }
    }
}
