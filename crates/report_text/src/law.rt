//! The laws of reports and their lines.

ghost use Rattle.std.specs.Prelude.{◌≡◌, ◌≢◌, ℕ, ◌<◌, ◌-◌, List, [], ◌++◌, length, None};
ghost use Rattle.goal_ast.specs.declared.goal.Bound.{Bound};
ghost use Rattle.report_text.specs.Line.{ReportLine, IsReportLine, report_line};
ghost use Rattle.report_text.specs.Fitting.{Reading, Over, begin, Fits, next, AllFit};
ghost use Rattle.report_text.specs.Report.{Report, IsReport, report_lines, report_text};
ghost use Rattle.report_text.specs.Place.{IsAlone, IsNoReport, LinesEnd, IsReadTo};
ghost use Rattle.report_text.specs.declared.progress.Due.{Due as DueSpec};
ghost use Rattle.report_text.specs.declared.progress.Due.TheVariants.{Nothing};
ghost use Rattle.report_text.specs.declared.lines.Line.{Line as LineSpec};
ghost use Rattle.report_text.specs.declared.progress.Progress.{Progress as ProgressSpec};
ghost use Rattle.report_text.specs.Progress.{reading_of, vars_after, ReadsNext, FindsNext, expect_of};

/// Where two lines fit, at most one of them stands at the front of the same bytes.
pub fn one_line()
    ensures { IsAlone }
{}

/// A text has at most one reading as a report.
pub fn one_reading()
    ensures { (r s : Report) → IsReport r → IsReport s → report_text r ≡ report_text s → r ≡ s }
{}

/// Bytes have at most one place where lines end, and only where they are no report.
pub fn one_place()
    ensures one { (bytes : List ℕ) (at other : ℕ) → LinesEnd bytes at → LinesEnd bytes other → at ≡ other }
    ensures none { (bytes : List ℕ) (at : ℕ) → LinesEnd bytes at → IsNoReport bytes }
{}

/// The lines of a report fit, up to the last one, and lines that fit so are those of a report.
pub fn reports_are_lines()
    ensures fit { (r : Report) → IsReport r → AllFit (report_lines r) }
    ensures all { (lines : List ReportLine) → AllFit lines → (r : Report) × IsReport r × (lines ≡ report_lines r) }
{}

/// A report is read line by line. At first no line is read; a line that fits leads further and takes bytes. Where none fits,
/// and bytes are left or the last line isn't read, lines end. Where the last line is read and no bytes are left, they are a
/// report.
pub fn reading_goes_on()
    ensures start { (bytes : List ℕ) → IsReadTo bytes bytes begin }
    ensures more { (bytes rest more : List ℕ) (r : Reading) (l : ReportLine)
        → IsReadTo bytes rest r → IsReportLine l → Fits r l → rest ≡ report_line l ++ more → IsReadTo bytes more (next r l) }
    ensures read { (bytes rest more : List ℕ) (vars : List Bound) (p q : ProgressSpec) (read : LineSpec)
        → IsReadTo bytes rest (reading_of vars p) → ReadsNext (reading_of vars p) vars rest read more q → IsReadTo bytes more (reading_of (vars_after vars read) q) }
    ensures fewer { (r : Reading) (vars : List Bound) (bytes rest : List ℕ) (read : LineSpec) (q : ProgressSpec)
        → ReadsNext r vars bytes read rest q → length rest < length bytes }
    ensures bad { (bytes rest : List ℕ) (r : Reading) (vars : List Bound)
        → IsReadTo bytes rest r → FindsNext r vars rest None → (r.expect ≡ Over → rest ≢ []) → LinesEnd bytes (length bytes - length rest) }
    ensures nothing { (vars : List Bound) (due : DueSpec) → expect_of vars due ≡ Over → due ≡ Nothing }
    ensures whole { (bytes : List ℕ) (r : Reading)
        → IsReadTo bytes [] r → r.expect ≡ Over → (report : Report) × IsReport report × (bytes ≡ report_text report) }
{}
