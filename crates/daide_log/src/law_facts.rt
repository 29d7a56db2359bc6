//! One application of each law that is written out in `laws`, to a log with a known report, so that a weakened law
//! fails to check. Nothing here is called. The laws that are definitions are applied in `proofs/LawFacts`.

ghost use Rattle.std.specs.Prelude.{◌≡◌, ◌++◌, [], ◌∷◌, ℕ, List, Option, Result, Ok, codes};
ghost use Rattle.daide_log_lines.specs.declared.fault.LogFault.{LogFault};
ghost use Rattle.daide_protocol.specs.declared.summary.Summary.{Summary};
ghost use Rattle.daide_log.specs.Log.{IsReport, plain};
ghost use Rattle.daide_log.specs.Progress.{IsInTime};

use crate::laws;

/// A log of its first two lines has one report, which counts nothing. A log with a wrong first byte also has a report.
fn one_report_at_two_logs()
    ensures one { (text : List ℕ) (answer : Result Summary LogFault) →
        IsReport (codes "daide-log 1" ++ 10 ∷ codes "config 60 1024 16" ++ 10 ∷ []) text answer →
        (text ≡ codes "relayed 0 prn 0 huh 0 faults 0" ++ 10 ∷ [])
        × (answer ≡ Ok (record { relayed = 0; prn = 0; huh = 0; faults = 0 })) }
    ensures some { (text : List ℕ) × (answer : Result Summary LogFault) × IsReport (0xC3 ∷ []) text answer }
{
    laws::log_has_one_report();
}

/// After a wrong first line and its line feed no read is in time.
fn no_read_after_a_bad_line()
    ensures { (before written : Option (List ℕ)) → IsInTime plain before (codes "x" ++ 10 ∷ []) written → ⊥ }
{
    laws::no_read_behind_a_fault();
}
