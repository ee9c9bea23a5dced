// The worked asks, as a theorem.
ghost use Rattle.assignment.specs.WorkedAsks.{WorkedHold};

// What each rule answers to the worked asks, by the rules' own definitions.
pub fn worked_asks_hold()
    ensures { WorkedHold }
{}
