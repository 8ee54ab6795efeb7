//! What the definitions of reading imply, apart from any code.

ghost use Rattle.std.specs.Prelude.{◌≡◌, ◌⊎◌, ℕ, List};
ghost use Rattle.rcpsp_model.specs.Project.{Project};
ghost use Rattle.psplib_layout.specs.declared.fault.Refusal.{Refusal};
ghost use Rattle.psplib_layout.specs.Text.{Reads, IsProjectText, IsFirstRefusal};

/// A text is a project or has a first refusal, and never both; and it has one first refusal at most.
pub fn a_text_is_read_or_refused()
    ensures either { (text : List ℕ) → IsProjectText text ⊎ ((f : Refusal) × IsFirstRefusal text f) }
    ensures never_both { (text : List ℕ) (P : Project) (f : Refusal) → Reads text P → IsFirstRefusal text f → ⊥ }
    ensures one_refusal { (text : List ℕ) (f g : Refusal) → IsFirstRefusal text f → IsFirstRefusal text g → f ≡ g }
{}
