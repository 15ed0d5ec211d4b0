ghost use Rattle.service.specs.Cases.{CasesHold};

// The worked cases of certification, settlement and closing come out as they should. It does nothing: its contract is
// their computation on the definitions.
pub fn worked_cases()
    ensures { CasesHold }
{}
