//! Whether a report spells answers so that they are read again.

ghost use Rattle.std.specs.Prelude.{◌≡◌, ◌↔◌, ◌<◌, ◌^◌, true, length, All, IsTrue};
ghost use Rattle.cert_text.specs.Check.{AreRows, IsRow};
ghost use Rattle.session_serve.specs.Spelling.{IsShownSpelled, IsSpelled, AreSpelled};

use cert_kit::PRow;
use cert_text::{is_cert, row_fits};
use goal_serve::{Answer, Shown};
use sqlite_items::Items;

// The row is one of the grammar, as each is.
fn is_row(row: &PRow) -> bool
    ensures row { IsRow row.now }
    ensures so { result ≡ true }
{
    row_fits(row);
    true
}

fn are_rows(rows: &[PRow]) -> bool
    ensures { IsTrue result → AreRows rows.now }
{
    rows.len() <= u32::MAX as usize && rows.iter().all(is_row)
}

fn is_shown_spelled(shown: &Shown) -> bool
    ensures { IsTrue result → IsShownSpelled shown.now }
{
    are_rows(shown.clause.rows.as_slice()) && is_cert(&shown.cert)
}

fn is_spelled(answer: &Answer) -> bool
    ensures { IsTrue result → IsSpelled answer.now }
{
    match answer {
        Answer::Proved(shown) => shown.as_slice().iter().all(is_shown_spelled),
        Answer::IllSorted { at } => {
            let _at = *at;
            true
        }
        Answer::Refuted(_) | Answer::Unsettled { .. } | Answer::Oversize(_) => true,
    }
}

fn is_session_spelled(answers: &[Answer]) -> bool
    ensures { IsTrue result → All IsSpelled answers.now }
{
    answers.iter().all(is_spelled)
}

/// Whether each answer is spelled so that it is read again: no clause has 2^32 rows or more, and no certificate is past
/// the limits of the grammar.
pub fn all_spelled(answers: &[Items<Answer>]) -> bool
    ensures { IsTrue result → AreSpelled answers.now }
{
    answers
        .iter()
        .all(|session| is_session_spelled(session.as_slice()))
}
