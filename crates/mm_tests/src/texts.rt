use cert_kit::{Cert, Clause};
use cert_text::{CheckText, print_cert, print_row, read_check};
use std::alloc::{AllocError, Global};
use std::test::Fail;

// The rows and the certificate, each on a line.
fn printed(alloc: Global, clause: &Clause, cert: &Cert) -> Result<Vec<u8>, AllocError> {
    let mut text = Vec::new(alloc);
    for row in clause.rows.as_slice() {
        text.extend_from_slice(b"row ")?;
        text.extend_from_slice(print_row(alloc, row)?.as_slice())?;
        text.extend_from_slice(b"\n")?;
    }
    text.extend_from_slice(b"cert ")?;
    text.extend_from_slice(print_cert(alloc, cert)?.as_slice())?;
    text.extend_from_slice(b"\n")?;
    Ok(text)
}

// Whether the text is read, and printed again as it stands.
fn is_read(alloc: Global, text: &str) -> Result<bool, AllocError> {
    match read_check(alloc, text.as_bytes()) {
        Ok((clause, cert)) => {
            let again = printed(alloc, &clause, &cert)?;
            Ok(again.as_slice() == text.as_bytes())
        }
        Err(CheckText::Bad { .. }) => Ok(false),
        Err(CheckText::NoMemory) => Err(AllocError),
    }
}

// The place where a text goes wrong, if it does.
fn place(alloc: Global, text: &str) -> Option<u64> {
    match read_check(alloc, text.as_bytes()) {
        Err(CheckText::Bad { at }) => Some(at),
        _ => None,
    }
}

// Forms to nest, with how often they are nested at most: what begins the text, what opens and closes a level, what
// stands inside, and what ends the text.
const NESTED: [(usize, &str, &str, &str, &str, &str); 6] = [
    (4096, "cert rat ", "add(", "in 0", ", in 1)", "; done\n"),
    (4096, "cert rat ", "mul(zero, ", "zero", ")", "; done\n"),
    (4096, "cert cut ", "mulp(x0, ", "zero", ")", "; done\n"),
    (
        4095,
        "cert cut ",
        "add(",
        "square(0)",
        ", zero)",
        "; done\n",
    ),
    (4096, "cert ", "split(x0, ", "done", ", done)", "\n"),
    (4096, "cert ", "enum(zero, zero, done, ", "done", ")", "\n"),
];

// A text with a form nested this deep.
fn nested(
    alloc: Global,
    depth: usize,
    form: &(usize, &str, &str, &str, &str, &str),
) -> Result<String, AllocError> {
    let mut text = String::from_str(alloc, form.1)?;
    for _ in 0..depth {
        text.push_str(form.2)?;
    }
    text.push_str(form.3)?;
    for _ in 0..depth {
        text.push_str(form.4)?;
    }
    text.push_str(form.5)?;
    Ok(text)
}

#[test]
fn at_most_4096_levels(rt: HostRuntime) -> Result<(), Fail> {
    let alloc = rt.alloc();
    for form in &NESTED {
        let deep = nested(alloc, form.0, form)?;
        assert!(rt; is_read(alloc, deep.as_str())?, "{}", form.2);
        for depth in [form.0 + 1, 100_000] {
            let deeper = nested(alloc, depth, form)?;
            assert_eq!(rt; place(alloc, deeper.as_str()), Some(0), "{}", form.2);
        }
    }
    Ok(())
}
