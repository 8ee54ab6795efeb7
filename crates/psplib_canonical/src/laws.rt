//! What the definitions of the canonical text and of the layout imply together.

ghost use Rattle.std.specs.Prelude.{◌≡◌};
ghost use Rattle.rcpsp_model.specs.Project.{Project, IsProject};
ghost use Rattle.project_net.specs.Canonical.{canonical};
ghost use Rattle.psplib_layout.specs.Text.{Reads};

/// The canonical text of a project is read, and gives the project.
pub fn canonical_reads()
    ensures { (P : Project) → IsProject P → Reads (canonical P) P }
{}

/// No two projects have the same canonical text.
pub fn canonical_texts_differ()
    ensures { (P Q : Project) → IsProject P → IsProject Q → canonical P ≡ canonical Q → P ≡ Q }
{}
