// What holds of every order.
ghost use Rattle.cli_words.specs.Laws.{WidthLaw};

/// The order of every list of words is within its limits: a run has from 1 to 1,024 commands at once and puts results into
/// a store that it also reads, the size of a sample is from 1 to 400, and at most 1,000,000 are kept.
pub fn width_law()
    ensures { WidthLaw }
{}
