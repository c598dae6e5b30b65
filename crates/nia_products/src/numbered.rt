use mm_poly::Poly;

/// The polynomial of an inequality, and the number of its row.
#[derive(Clone, Copy, Debug)]
pub struct Numbered<'a> {
    pub number: u32,
    pub poly: &'a Poly,
}
