use percent_encoding::percent_decode;
use std::alloc::{AllocError, Global};

/// What is asked of the input of a case.
#[derive(Clone, Copy, Debug, PartialEq, Eq)]
pub enum Kind {
    /// What `mm check` says of rows, parted by `; `, and a certificate after ` | `.
    Verdict,
    /// The line that `mm check` writes for these bytes, and the status.
    Check,
    /// The answers of `mm prove` to the goals of these bytes, parted by `; `, and the status.
    Prove,
    /// The same for the goals after `; `, with so many turns as stand before it.
    Within,
    /// What is said of each goal, without assignments, parted by `; `, and the status.
    Said,
    /// The whole report, its line feeds as `%0a`, and the status.
    Report,
    /// How many certificates of the report `mm check` accepts with their rows, of how many.
    Accepted,
    /// What `mm` writes for the words before ` | ` and the bytes after it, and the status.
    Words,
    /// What the rules say of a copy of the check that these bytes are, which is printed as they stand.
    Again,
    /// The sum of two polynomials, parted by `; `.
    Sum,
    /// Their product.
    Product,
    /// The multiple of the polynomial after `; ` by the number before it.
    Multiple,
    /// The value of the polynomial after `; ` at the numbers before it.
    Value,
    /// The greatest divisor common to a polynomial's coefficients that aren't constant.
    Content,
    /// The cut of a row.
    Cut,
    /// How two polynomials, parted by `; `, compare.
    Order,
    /// A polynomial's norm, spread and degree.
    Measures,
    /// The coefficient of a monomial in the polynomial after `; `.
    Coefficient,
    /// Two numbers, `; `, and two polynomials, parted by `; `: the sum of each times its number.
    Combination,
    /// The polynomial after `; ` with the variables of the table before it.
    Renamed,
    /// What the simplex answers to rows within some turns.
    Simplex,
    /// The word of that answer alone.
    End,
    /// The tokens of these bytes as a goal file.
    Tokens,
    /// How these bytes are read as a goal file, or why not.
    Read,
    /// The text of the goal, once it has its sorts, or the place where it has none.
    Sort,
    /// Whether the goal after `; ` holds at the values before it.
    Truth,
    /// The lines of the assignment of these values to the variables of the goal after `; `.
    Show,
    /// The goal over the integers, or the limit that it passes.
    Translate,
    /// How many clauses the goal has.
    Count,
    /// The clauses of the goal.
    Clauses,
    /// The key of the clause of these rows, parted by `; `, in hexadecimal.
    Key,
    /// How many bytes that key has, and its name.
    KeyName,
    /// How the elimination of these rows, parted by `; `, ends.
    Eliminate,
    /// What comes of the box of the rows after the first `; ` in so many turns as stand before it.
    Box,
    /// The first assignment of the goal's cube.
    Cube,
    /// How two rows, parted by `; `, compare.
    RowOrder,
}

/// A case: what is asked of which input, and the answer that is due.
#[derive(Clone, Copy, Debug)]
pub struct Case<'a> {
    pub kind: Kind,
    pub input: &'a str,
    pub due: &'a str,
}

fn kind_of(word: &str) -> Option<Kind> {
    match word {
        "verdict" => Some(Kind::Verdict),
        "check" => Some(Kind::Check),
        "prove" => Some(Kind::Prove),
        "within" => Some(Kind::Within),
        "said" => Some(Kind::Said),
        "report" => Some(Kind::Report),
        "accepted" => Some(Kind::Accepted),
        "words" => Some(Kind::Words),
        "again" => Some(Kind::Again),
        "sum" => Some(Kind::Sum),
        "product" => Some(Kind::Product),
        "multiple" => Some(Kind::Multiple),
        "value" => Some(Kind::Value),
        "content" => Some(Kind::Content),
        "cut" => Some(Kind::Cut),
        "order" => Some(Kind::Order),
        "measures" => Some(Kind::Measures),
        "coefficient" => Some(Kind::Coefficient),
        "combination" => Some(Kind::Combination),
        "renamed" => Some(Kind::Renamed),
        "simplex" => Some(Kind::Simplex),
        "end" => Some(Kind::End),
        "tokens" => Some(Kind::Tokens),
        "read" => Some(Kind::Read),
        "sort" => Some(Kind::Sort),
        "truth" => Some(Kind::Truth),
        "show" => Some(Kind::Show),
        "translate" => Some(Kind::Translate),
        "count" => Some(Kind::Count),
        "clauses" => Some(Kind::Clauses),
        "key" => Some(Kind::Key),
        "key-name" => Some(Kind::KeyName),
        "eliminate" => Some(Kind::Eliminate),
        "box" => Some(Kind::Box),
        "cube" => Some(Kind::Cube),
        "row-order" => Some(Kind::RowOrder),
        _ => None,
    }
}

/// The case that a line is.
pub fn case_of(line: &str) -> Option<Case<'_>> {
    let (question, due) = line.rsplit_once(" => ")?;
    let (word, input) = question.split_once(' ')?;
    let kind = kind_of(word)?;
    Some(Case { kind, input, due })
}

// A piece `N TEXT>>REST` after `<<`: N times TEXT, and REST.
fn push_piece(text: &mut String, piece: &str) -> Result<(), AllocError> {
    let Some((repeated, rest)) = piece.split_once(">>") else {
        return text.push_str(piece);
    };
    let Some((count, part)) = repeated.split_once(' ') else {
        return text.push_str(piece);
    };
    for _ in 0..count.parse::<u32>().unwrap_or(0) {
        text.push_str(part)?;
    }
    text.push_str(rest)
}

/// The bytes of an input: repetitions are written out, and then `%XX` is a byte.
pub fn input_of(alloc: Global, input: &str) -> Result<Vec<u8>, AllocError> {
    let mut text = String::new(alloc);
    let mut is_first = true;
    for piece in input.split("<<") {
        if is_first {
            text.push_str(piece)?;
        } else {
            push_piece(&mut text, piece)?;
        }
        is_first = false;
    }
    let mut bytes = Vec::new(alloc);
    percent_decode(text.as_bytes()).append_to(&mut bytes)?;
    Ok(bytes)
}
