//! The laws of checked reports.

ghost use Rattle.std.specs.Prelude.{◌≡◌, ℕ, List};
ghost use Rattle.goal_token.specs.Tokens.{tokens_of};
ghost use Rattle.goal_sort.specs.declared.raw.RawSession.{RawSession};
ghost use Rattle.goal_text.specs.Files.{Reads};
ghost use Rattle.goal_text.specs.Refusals.{IsWithin};
ghost use Rattle.goal_serve.specs.declared.answers.Answer.{Answer};
ghost use Rattle.session_serve.specs.Report.{report_text as served_text, no_cache};
ghost use Rattle.session_serve.specs.Serving.{MeetSessions};
ghost use Rattle.session_serve.specs.Spelling.{AreSpelled};
ghost use Rattle.report_text.specs.Report.{Report, IsReport};
ghost use Rattle.report_check.specs.declared.types.Recheck.{Recheck as Verdict};
ghost use Rattle.report_check.specs.declared.types.Recheck.TheVariants.{Accepted};
ghost use Rattle.report_check.specs.Goodness.{HasGoodGoals, Rechecks};
ghost use Rattle.report_check.specs.Rightness.{IsRightReport};

/// Where each goal of a report is good, each proved goal holds for all values, and each refuted one is false at its
/// assignment.
pub fn good_goals_are_right()
    ensures { (r : Report) → IsReport r → HasGoodGoals r → IsRightReport r }
{}

/// The report on the goals of a file is accepted, where the answers are good and spelled so that they are read again.
pub fn served_reports_are_accepted()
    ensures { (turns : ℕ) (bytes : List ℕ) (sessions : List RawSession) (answers : List (List Answer)) → Reads bytes sessions → IsWithin (tokens_of bytes) → MeetSessions turns sessions answers
        → AreSpelled answers → Rechecks (served_text sessions answers no_cache no_cache) Accepted }
{}

/// Of the same bytes at most one thing is said.
pub fn one_verdict()
    ensures { (bytes : List ℕ) (v w : Verdict) → Rechecks bytes v → Rechecks bytes w → v ≡ w }
{}
