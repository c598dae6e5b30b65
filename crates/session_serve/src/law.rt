//! The laws of serving.

ghost use Rattle.std.specs.Prelude.{ℕ, List};
ghost use Rattle.goal_sort.specs.declared.raw.RawSession.{RawSession as Session};
ghost use Rattle.goal_text.specs.GoalsRead.{AreReadable};
ghost use Rattle.goal_serve.specs.declared.answers.Answer.{Answer};
ghost use Rattle.session_serve.specs.Report.{AreReplies};
ghost use Rattle.session_serve.specs.Rightness.{AreRight, AreValid};
ghost use Rattle.session_serve.specs.Serving.{MeetSessions, AreProved};

use goal_serve::proved_goals_are_valid;
use goal_sort::{sorted_goals_are_well_formed, sorting_gives};

/// Good answers can be reported.
pub fn good_answers_are_replies()
    ensures { (turns : ℕ) (sessions : List Session) (answers : List (List Answer)) → MeetSessions turns sessions answers → AreReplies sessions answers }
{
    sorting_gives();
}

/// Good answers are right: a proved goal holds for all values, and a refuted one is false at its assignment.
pub fn good_answers_are_right()
    ensures { (turns : ℕ) (sessions : List Session) (answers : List (List Answer)) → AreReadable sessions → MeetSessions turns sessions answers → AreRight sessions answers }
{
    sorted_goals_are_well_formed();
    proved_goals_are_valid();
}

/// Where right answers are that each goal is proved, each holds for all values.
pub fn proved_sessions_are_valid()
    ensures { (sessions : List Session) (answers : List (List Answer)) → AreRight sessions answers → AreProved answers → AreValid sessions }
{}
