// The worked values, as a theorem.
ghost use Rattle.prices.specs.WorkedValues.{WorkedHold};

// What the worked positions are worth, and which are in the money, by the definitions that the contracts cite.
pub fn worked_values_hold()
    ensures { WorkedHold }
{}
