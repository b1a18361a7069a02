// What an ask must answer: the definition of the answer, the laws that every answer obeys, and the law over whole histories. Theory, and no code.
#![tactic(auto)]

ghost use Rattle.answers.specs.Examples.{EntriesHold};
ghost use Rattle.answers.specs.Laws.{AnswersRight, AnswersEnclose};
ghost use Rattle.answers.specs.Trace.{TraceStarts, TraceGoesOn, SheetsTraced};

// Every answer lies where it should, has the depth that it should, and two answers enclose the sum; worked entries come out as written.
pub fn answers_stand()
    ensures right { AnswersRight }
    ensures enclose { AnswersEnclose }
    ensures entries { EntriesHold }
{}

// The law over histories holds from the laying of a sheet on, and goes on with each call; so it does with those that open and set sheets offer.
pub fn traces_stand()
    ensures starts { TraceStarts }
    ensures goes_on { TraceGoesOn }
    ensures sheets { SheetsTraced }
{}
