// Worked cases of the rules, computed from the definitions.
#![tactic(auto)]

ghost use Rattle.worked.specs.Runs.{Nine, Eight, Refusals, Redone, Fills, Bytes};
ghost use Rattle.worked.specs.Table.{Worked};

// The table of worked cases follows from the definitions.
pub fn cases_stand()
    ensures { Worked }
{}

// Small runs are answered, and small views have the bytes, as the rules say.
pub fn runs_stand()
    ensures nine { Nine }
    ensures eight { Eight }
    ensures refusals { Refusals }
    ensures redone { Redone }
    ensures fills { Fills }
    ensures bytes { Bytes }
{}
