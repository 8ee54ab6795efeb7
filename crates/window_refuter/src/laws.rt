//! Laws of windows and steps.

ghost use Rattle.window_refuter.specs.Laws.{WindowsLaw, EndLaw, InsideLaw};

/// Where steps refute windows, no feasible schedule keeps them; where they refute an end, none ends by then.
pub fn sound()
    ensures windows { WindowsLaw }
    ensures end { EndLaw }
{}

/// What refutes windows refutes those inside them, by other steps.
pub fn inside()
    ensures { InsideLaw }
{}
