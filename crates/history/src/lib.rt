// Histories are in specs/; each function here stands for a theorem on them.
#![tactic(auto)]

ghost use Rattle.history.specs.Laws.{MarksMean, MarksLast, TakesNeed, RunsSound, RunsMade, RunsCounted, RunsTakeNeed, AnswersByHistory, RefusedKeeps, ViewsFit};

// The marks of a line are exactly the last touches, and a place is marked where it is the last edit's.
pub fn marks_mean()
    ensures touches { MarksMean }
    ensures last { MarksLast }
{}

// After every list of calls: numbers are unique, 0 and the head are live, parents are live and older,
// the size is 1 to 256, the count does not pass the store's size, and every entry is the edit at its place.
pub fn runs_sound()
    ensures sound { RunsSound }
    ensures made { RunsMade }
{}

// What is counted are the live snapshots and, each once, the stretches of live lines with their last edits.
pub fn runs_counted()
    ensures { RunsCounted }
{}

// An edit raises the count by exactly its need.
pub fn takes_need()
    ensures { TakesNeed }
{}

// Over every run an accepted edit takes exactly its need of what is left.
pub fn runs_take_need()
    ensures { RunsTakeNeed }
{}

// Each answer depends only on the calls before it, and a refused call leaves the history unaltered.
pub fn answers_by_history()
    ensures before { AnswersByHistory }
    ensures refused { RefusedKeeps }
{}

// Headers and rows fit the buffers that they are not refused for.
pub fn views_fit()
    ensures { ViewsFit }
{}
