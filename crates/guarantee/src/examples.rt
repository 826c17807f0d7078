ghost use Rattle.guarantee.specs.Examples.{WorkedExamples};

/// The worked examples of the format, each shown of the definitions that the contracts use.
pub fn worked_examples()
    ensures { WorkedExamples }
{}
