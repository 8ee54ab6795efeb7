ghost use Rattle.log_truth.specs.Laws.{GoodLaw, NoRefusalLaw, OneRefusalLaw, EitherLaw};

/// A log in which nothing is wrong holds; with one that holds nothing is wrong first, and with any other exactly one thing.
pub fn first_refusal()
    ensures good { GoodLaw }
    ensures none { NoRefusalLaw }
    ensures one { OneRefusalLaw }
    ensures either { EitherLaw }
{}
