//! Laws of the text, for those who print it and read it again.

ghost use Rattle.std.specs.Prelude.{◌≡◌, ◌++◌, ℕ, List, Some, Ok};
ghost use Rattle.std.specs.List.{flat_map};
ghost use Rattle.cert_kit.specs.declared.row.PRow.{PRow};
ghost use Rattle.cert_kit.specs.declared.cert.Cert.{Cert as Certificate};
ghost use Rattle.cert_text.specs.Text.{row_line, cert_line, IsLine};
ghost use Rattle.cert_text.specs.Check.{IsRow, IsCert, IsCheck};
ghost use Rattle.cert_text.specs.Reading.{row_at, cert_line_at};
ghost use Rattle.cert_text.specs.Whole.{check_at};

/// What is spelled is read again, whatever follows it: the line of a row, the line of a certificate, and lines of rows
/// with the line of a certificate behind them, which is how `read_check` reads.
pub fn spelled_is_read()
    ensures row { (r : PRow) (rest : List ℕ) → IsRow r → row_at (row_line r ++ rest) ≡ Some (r, rest) }
    ensures cert { (c : Certificate) (rest : List ℕ) → IsCert c → cert_line_at (cert_line c ++ rest) ≡ Some (c, rest) }
    ensures check { (rows : List PRow) (c : Certificate) → IsCheck rows c → check_at (flat_map row_line rows ++ cert_line c) ≡ Ok (rows, c) }
{}

/// The line of a row and the line of a certificate have one line feed each, at their end.
pub fn each_is_a_line()
    ensures row { (r : PRow) → IsLine (row_line r) }
    ensures cert { (c : Certificate) → IsLine (cert_line c) }
{}
