ghost use Rattle.std.specs.Prelude.{◌≡◌, ◌≤◌, ◌+◌, ◌∷◌, [], map, length, drop, codes, string_bytes, true, Some, None, IfOk, IfErr, OnOk};
ghost use Rattle.psplib_lex.specs.Number.{digits_value};
ghost use Rattle.plan_words.specs.Options.{free_forms, AreWithin, ComeTo};
ghost use Rattle.plan_words.specs.Words.{first_bad, is_name, is_seed, is_jobs, modes_form, workers_form, nodes_form, log_form, tries_form, bad_word, word_at, number_behind, yes_behind, IsCommand, IsWithinSearch, CanBeMade, IsWithinReach};

use crate::command::{BadWords, Command, Recipe, Request};
use crate::number::number_within;
use crate::options::{Choice, Options};

/// The options where no word may give one: one mode, one worker, 50,000 expansions, the log, and no tries.
const NONE: Options = Options {
    modes: Choice {
        free: false,
        value: 1,
    },
    workers: Choice {
        free: false,
        value: 1,
    },
    nodes: Choice {
        free: false,
        value: 50_000,
    },
    log: Choice {
        free: false,
        value: true,
    },
    tries: Choice {
        free: false,
        value: 0,
    },
};

/// The options of `solve`.
const SOLVE: Options = Options {
    workers: Choice {
        free: true,
        value: 1,
    },
    nodes: Choice {
        free: true,
        value: 50_000,
    },
    log: Choice {
        free: true,
        value: true,
    },
    tries: Choice {
        free: true,
        value: 0,
    },
    ..NONE
};

/// The option of `make`.
const MAKE: Options = Options {
    modes: Choice {
        free: true,
        value: 1,
    },
    ..NONE
};

/// The options of `trial`.
const TRIAL: Options = Options {
    modes: Choice {
        free: true,
        value: 1,
    },
    workers: Choice {
        free: true,
        value: 1,
    },
    nodes: Choice {
        free: true,
        value: 50_000,
    },
    ..NONE
};

/// The option of `plan`.
const PLAN: Options = Options {
    tries: Choice {
        free: true,
        value: 0,
    },
    ..NONE
};

/// The options that words from this place on give.
fn parse_options(words: &[String], place: u32, options: Options) -> Result<Options, BadWords>
    requires few { place + length (free_forms options) ≤ 100 }
    requires range { AreWithin options }
    ensures command { OnOk result (first_bad [] (free_forms options) (map string_bytes words.now) place ≡ None) }
    ensures fault { IfErr result (λ bad. first_bad [] (free_forms options) (map string_bytes words.now) place ≡ Some bad.place) }
    ensures values { IfOk result (λ now. ComeTo options now (map string_bytes words.now) []) }
    ensures range { IfOk result AreWithin }
{
    match words {
        [] => Ok(options),
        [word, rest @ ..] => match options.with_word(word.as_str()) {
            Some(options) => parse_options(rest, place + 1, options),
            None => Err(BadWords { place }),
        },
    }
}

/// The command that the words are.
pub fn parse_words(words: &[String]) -> Result<Command<'_>, BadWords>
    ensures fault { IfErr result (λ bad. bad_word (map string_bytes words.now) ≡ Some bad.place) }
    ensures command { IfOk result (λ command. IsCommand (map string_bytes words.now) command) }
    ensures reach { IfOk result IsWithinReach }
{
    let [command, rest @ ..] = words else {
        return Err(BadWords { place: 1 });
    };
    match command.as_str() {
        "solve" => {
            let (project, request) = parse_solve(rest)?;
            Ok(Command::Solve { project, request })
        }
        "check" => {
            let (project, report) = parse_two_names(rest)?;
            Ok(Command::Check { project, report })
        }
        "show" => {
            let project = parse_last_name(rest, 2)?;
            Ok(Command::Show { project })
        }
        "make" => {
            let recipe = parse_make(rest)?;
            Ok(Command::Make(recipe))
        }
        "trial" => {
            let (recipe, workers, nodes) = parse_trial(rest)?;
            Ok(Command::Trial {
                recipe,
                workers,
                nodes,
            })
        }
        "plan" => {
            let (project, tries) = parse_plan(rest)?;
            Ok(Command::Plan { project, tries })
        }
        "bound" => {
            let project = parse_last_name(rest, 2)?;
            Ok(Command::Bound { project })
        }
        "verify" => {
            let (project, bound) = parse_two_names(rest)?;
            Ok(Command::Verify { project, bound })
        }
        _ => Err(BadWords { place: 1 }),
    }
}

/// The name and the request in the words after `solve`.
fn parse_solve(words: &[String]) -> Result<(&str, Request), BadWords>
    ensures command { OnOk result (first_bad (is_name ∷ []) (workers_form ∷ nodes_form ∷ log_form ∷ tries_form ∷ []) (map string_bytes words.now) 2 ≡ None) }
    ensures fault { IfErr result (λ bad. first_bad (is_name ∷ []) (workers_form ∷ nodes_form ∷ log_form ∷ tries_form ∷ []) (map string_bytes words.now) 2 ≡ Some bad.place) }
    ensures name { IfOk result (λ solve. solve.0.now ≡ word_at (map string_bytes words.now) 0) }
    ensures workers { IfOk result (λ solve. solve.1.workers ≡ number_behind (codes "workers=") 1 (drop 1 (map string_bytes words.now))) }
    ensures nodes { IfOk result (λ solve. solve.1.nodes ≡ number_behind (codes "nodes=") 50000 (drop 1 (map string_bytes words.now))) }
    ensures tries { IfOk result (λ solve. solve.1.tries ≡ number_behind (codes "tries=") 0 (drop 1 (map string_bytes words.now))) }
    ensures log { IfOk result (λ solve. solve.1.log ≡ yes_behind (codes "log=") true (drop 1 (map string_bytes words.now))) }
    ensures range { IfOk result (λ solve. IsWithinSearch solve.1) }
{
    let (project, options) = parse_named(words, SOLVE)?;
    let request = Request {
        workers: options.workers.value,
        nodes: options.nodes.value,
        tries: options.tries.value,
        log: options.log.value,
    };
    Ok((project, request))
}

/// The name and the number of tries in the words after `plan`.
fn parse_plan(words: &[String]) -> Result<(&str, u32), BadWords>
    ensures command { OnOk result (first_bad (is_name ∷ []) (tries_form ∷ []) (map string_bytes words.now) 2 ≡ None) }
    ensures fault { IfErr result (λ bad. first_bad (is_name ∷ []) (tries_form ∷ []) (map string_bytes words.now) 2 ≡ Some bad.place) }
    ensures name { IfOk result (λ plan. plan.0.now ≡ word_at (map string_bytes words.now) 0) }
    ensures tries { IfOk result (λ plan. plan.1 ≡ number_behind (codes "tries=") 0 (drop 1 (map string_bytes words.now))) }
    ensures range { IfOk result (λ plan. plan.1 ≤ 1000000) }
{
    let (project, options) = parse_named(words, PLAN)?;
    Ok((project, options.tries.value))
}

/// The name of a project and the options behind it.
fn parse_named(words: &[String], options: Options) -> Result<(&str, Options), BadWords>
    requires few { length (free_forms options) ≤ 5 }
    requires range { AreWithin options }
    ensures command { OnOk result (first_bad (is_name ∷ []) (free_forms options) (map string_bytes words.now) 2 ≡ None) }
    ensures fault { IfErr result (λ bad. first_bad (is_name ∷ []) (free_forms options) (map string_bytes words.now) 2 ≡ Some bad.place) }
    ensures name { IfOk result (λ named. named.0.now ≡ word_at (map string_bytes words.now) 0) }
    ensures values { IfOk result (λ named. ComeTo options named.1 (drop 1 (map string_bytes words.now)) []) }
    ensures range { IfOk result (λ named. AreWithin named.1) }
{
    match words {
        [project, rest @ ..] if !project.is_empty() => match parse_options(rest, 3, options) {
            Ok(options) => Ok((project.as_str(), options)),
            Err(bad) => Err(bad),
        },
        _ => Err(BadWords { place: 2 }),
    }
}

/// The words where none can be left, from this place on.
fn parse_end(words: &[String], place: u32) -> Result<(), BadWords>
    ensures command { OnOk result (first_bad [] [] (map string_bytes words.now) place ≡ None) }
    ensures fault { IfErr result (λ bad. first_bad [] [] (map string_bytes words.now) place ≡ Some bad.place) }
{
    match words {
        [] => Ok(()),
        [_, ..] => Err(BadWords { place }),
    }
}

/// The name that is the last of the words, from this place on.
fn parse_last_name(words: &[String], place: u32) -> Result<&str, BadWords>
    requires { place ≤ 100 }
    ensures command { OnOk result (first_bad (is_name ∷ []) [] (map string_bytes words.now) place ≡ None) }
    ensures fault { IfErr result (λ bad. first_bad (is_name ∷ []) [] (map string_bytes words.now) place ≡ Some bad.place) }
    ensures name { IfOk result (λ name. name.now ≡ word_at (map string_bytes words.now) 0) }
{
    match words {
        [name, rest @ ..] if !name.is_empty() => match parse_end(rest, place + 1) {
            Ok(()) => Ok(name.as_str()),
            Err(bad) => Err(bad),
        },
        _ => Err(BadWords { place }),
    }
}

/// The names of a project and of a text that is judged, in the words after `check` or `verify`.
fn parse_two_names(words: &[String]) -> Result<(&str, &str), BadWords>
    ensures command { OnOk result (first_bad (is_name ∷ is_name ∷ []) [] (map string_bytes words.now) 2 ≡ None) }
    ensures fault { IfErr result (λ bad. first_bad (is_name ∷ is_name ∷ []) [] (map string_bytes words.now) 2 ≡ Some bad.place) }
    ensures project { IfOk result (λ names. names.0.now ≡ word_at (map string_bytes words.now) 0) }
    ensures judged { IfOk result (λ names. names.1.now ≡ word_at (map string_bytes words.now) 1) }
{
    match words {
        [project, rest @ ..] if !project.is_empty() => match parse_last_name(rest, 3) {
            Ok(judged) => Ok((project.as_str(), judged)),
            Err(bad) => Err(bad),
        },
        _ => Err(BadWords { place: 2 }),
    }
}

/// What a project is made from, in the words after `make`.
fn parse_make(words: &[String]) -> Result<Recipe, BadWords>
    ensures command { OnOk result (first_bad (is_seed ∷ is_jobs ∷ []) (modes_form ∷ []) (map string_bytes words.now) 2 ≡ None) }
    ensures fault { IfErr result (λ bad. first_bad (is_seed ∷ is_jobs ∷ []) (modes_form ∷ []) (map string_bytes words.now) 2 ≡ Some bad.place) }
    ensures seed { IfOk result (λ recipe. recipe.seed ≡ digits_value (word_at (map string_bytes words.now) 0)) }
    ensures jobs { IfOk result (λ recipe. recipe.jobs ≡ digits_value (word_at (map string_bytes words.now) 1)) }
    ensures modes { IfOk result (λ recipe. recipe.modes ≡ number_behind (codes "modes=") 1 (drop 2 (map string_bytes words.now))) }
    ensures range { IfOk result CanBeMade }
{
    let (seed, jobs, options) = parse_made(words, MAKE)?;
    let modes = options.modes.value as u8;
    Ok(Recipe { seed, jobs, modes })
}

/// What a project is made from, and the numbers of workers and of expansions, in the words after `trial`.
fn parse_trial(words: &[String]) -> Result<(Recipe, u32, u32), BadWords>
    ensures command { OnOk result (first_bad (is_seed ∷ is_jobs ∷ []) (modes_form ∷ workers_form ∷ nodes_form ∷ []) (map string_bytes words.now) 2 ≡ None) }
    ensures fault { IfErr result (λ bad. first_bad (is_seed ∷ is_jobs ∷ []) (modes_form ∷ workers_form ∷ nodes_form ∷ []) (map string_bytes words.now) 2 ≡ Some bad.place) }
    ensures seed { IfOk result (λ trial. trial.0.seed ≡ digits_value (word_at (map string_bytes words.now) 0)) }
    ensures jobs { IfOk result (λ trial. trial.0.jobs ≡ digits_value (word_at (map string_bytes words.now) 1)) }
    ensures modes { IfOk result (λ trial. trial.0.modes ≡ number_behind (codes "modes=") 1 (drop 2 (map string_bytes words.now))) }
    ensures workers { IfOk result (λ trial. trial.1 ≡ number_behind (codes "workers=") 1 (drop 2 (map string_bytes words.now))) }
    ensures nodes { IfOk result (λ trial. trial.2 ≡ number_behind (codes "nodes=") 50000 (drop 2 (map string_bytes words.now))) }
    ensures recipe { IfOk result (λ trial. CanBeMade trial.0) }
    ensures range { IfOk result (λ trial. (1 ≤ trial.1) × (trial.1 ≤ 32) × (trial.2 ≤ 100000)) }
{
    let (seed, jobs, options) = parse_made(words, TRIAL)?;
    let modes = options.modes.value as u8;
    let recipe = Recipe { seed, jobs, modes };
    Ok((recipe, options.workers.value, options.nodes.value))
}

/// The seed, the number of jobs and the options in the words of a made project.
fn parse_made(words: &[String], options: Options) -> Result<(u32, u8, Options), BadWords>
    requires few { length (free_forms options) ≤ 5 }
    requires range { AreWithin options }
    ensures command { OnOk result (first_bad (is_seed ∷ is_jobs ∷ []) (free_forms options) (map string_bytes words.now) 2 ≡ None) }
    ensures fault { IfErr result (λ bad. first_bad (is_seed ∷ is_jobs ∷ []) (free_forms options) (map string_bytes words.now) 2 ≡ Some bad.place) }
    ensures seed { IfOk result (λ made. made.0 ≡ digits_value (word_at (map string_bytes words.now) 0)) }
    ensures jobs { IfOk result (λ made. made.1 ≡ digits_value (word_at (map string_bytes words.now) 1)) }
    ensures values { IfOk result (λ made. ComeTo options made.2 (drop 2 (map string_bytes words.now)) []) }
    ensures size { IfOk result (λ made. (3 ≤ made.1) × (made.1 ≤ 128)) }
    ensures range { IfOk result (λ made. AreWithin made.2) }
{
    let [word, rest @ ..] = words else {
        return Err(BadWords { place: 2 });
    };
    let Some(seed) = number_within(word.as_bytes(), 0, 999_999_999) else {
        return Err(BadWords { place: 2 });
    };
    let (jobs, options) = parse_size(rest, options)?;
    Ok((seed, jobs, options))
}

/// The number of jobs and the options in the words after the seed.
fn parse_size(words: &[String], options: Options) -> Result<(u8, Options), BadWords>
    requires few { length (free_forms options) ≤ 5 }
    requires range { AreWithin options }
    ensures command { OnOk result (first_bad (is_jobs ∷ []) (free_forms options) (map string_bytes words.now) 3 ≡ None) }
    ensures fault { IfErr result (λ bad. first_bad (is_jobs ∷ []) (free_forms options) (map string_bytes words.now) 3 ≡ Some bad.place) }
    ensures jobs { IfOk result (λ size. size.0 ≡ digits_value (word_at (map string_bytes words.now) 0)) }
    ensures values { IfOk result (λ size. ComeTo options size.1 (drop 1 (map string_bytes words.now)) []) }
    ensures size { IfOk result (λ size. (3 ≤ size.0) × (size.0 ≤ 128)) }
    ensures range { IfOk result (λ size. AreWithin size.1) }
{
    let [word, rest @ ..] = words else {
        return Err(BadWords { place: 3 });
    };
    let Some(jobs) = number_within(word.as_bytes(), 3, 128) else {
        return Err(BadWords { place: 3 });
    };
    let options = parse_options(rest, 4, options)?;
    Ok((jobs as u8, options))
}
