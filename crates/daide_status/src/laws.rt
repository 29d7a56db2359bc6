//! What holds of the definitions by themselves.

ghost use Rattle.std.specs.Prelude.{◌≡◌, ◌↔◌, ℕ, List, Some};
ghost use Rattle.daide_status.specs.declared.request.ControlRequest.{ControlRequest};
ghost use Rattle.daide_status.specs.declared.request.Format.{Format};
ghost use Rattle.daide_status.specs.declared.snapshot.RunStatus.{RunStatus};
ghost use Rattle.daide_status.specs.declared.snapshot.SessionRow.{SessionRow};
ghost use Rattle.daide_status.specs.Requests.{IsRequest, requested_by, request_text};
ghost use Rattle.daide_status.specs.StatusTexts.{begun, ended, status_text, with_rows};

/// A text that begins with the status of a run, and gets a row for each session, is the text of that status and of those
/// rows in their order: a function of the snapshot.
pub fn status_is_of_the_snapshot()
    ensures { (format : Format) (run : RunStatus) (rows : List SessionRow) →
        ended (with_rows rows (begun format run)) ≡ status_text format run rows }
{}

/// A line is a request's exactly if it is its text; the number of a session is 1 to 4,294,967,295.
pub fn line_is_of_its_request()
    ensures { (line : List ℕ) (request : ControlRequest) →
        (requested_by line ≡ Some request) ↔ ((line ≡ request_text request) × IsRequest request) }
{}
