//! What the definitions say of one project, apart from any code.

ghost use Rattle.std.specs.Prelude.{◌≡◌, ◌^◌, map};
ghost use Rattle.std.specs.List.{range_with_len};
ghost use Rattle.project_gen.specs.Draws.{stream_of_seed, draw};
ghost use Rattle.project_gen.specs.Made.{made};
ghost use Rattle.project_gen.specs.Example.{first_words, least_project};

/// The first five words for seed 42, and the project of three jobs that is made of them.
pub fn the_least_made_project()
    ensures words { map (λ i. draw (stream_of_seed 42) i (2 ^ 32)) (range_with_len 0 5) ≡ first_words }
    ensures project { made 42 3 1 ≡ least_project }
{}
