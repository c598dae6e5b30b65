ghost use Rattle.std.specs.Prelude.{◌↔◌, All, IsTrue};
ghost use Rattle.session_serve.specs.Serving.{IsProved, AreProved};

use goal_serve::Answer;
use sqlite_items::Items;

/// The disks of the two caches.
#[derive(Drop)]
pub struct Caches<D> {
    pub lia: D,
    pub nia: D,
}

/// The answers to the goals of each session, and the disks that were handed in.
#[derive(Drop)]
pub struct Served<D> {
    pub answers: Items<Items<Answer>>,
    pub caches: Caches<D>,
}

/// Memory ran out; the disks that were handed in.
#[derive(Drop)]
pub struct Unserved<D> {
    pub caches: Caches<D>,
}

fn is_proved(answer: &Answer) -> bool
    ensures { IsTrue result ↔ IsProved answer.now }
{
    matches!(answer, Answer::Proved(_))
}

fn is_session_proved(answers: &[Answer]) -> bool
    ensures { IsTrue result ↔ All IsProved answers.now }
{
    answers.iter().all(is_proved)
}

/// Whether each goal of each session is proved.
pub fn all_proved(answers: &[Items<Answer>]) -> bool
    ensures { IsTrue result ↔ AreProved answers.now }
{
    answers
        .iter()
        .all(|session| is_session_proved(session.as_slice()))
}
