ghost use Rattle.std.specs.Prelude.{◌≡◌, IsSome};

use once_cell::race::Note;

/// Two notes of one cell that know a value know the same one, whichever threads took them.
pub fn agree<T>(first: &mut Note<T>, second: &mut Note<T>)
    requires cell { first.old.cell ≡ second.old.cell }
    requires first { IsSome first.old.known }
    requires second { IsSome second.old.known }
    ensures equal { first.old.known ≡ second.old.known }
    ensures first { first.new ≡ first.old }
    ensures second { second.new ≡ second.old }
{
    let copy = second.again();
    first.compare(copy);
}
