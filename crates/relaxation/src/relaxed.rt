use cert_kit::Cert;
use mm_num::Frac;

/// What comes of the relaxation of rows.
#[derive(Debug, Drop)]
pub enum Relaxed {
    /// A good certificate: no rational values solve the rows.
    Cert(Cert),
    /// Values that solve the rows, one for each unknown, in monomial order.
    Point(Vec<Frac>),
    /// Neither: the turns are taken, a number is too great, or a certificate would be.
    Open,
}

/// What comes of the relaxation, and how many turns are left.
#[derive(Debug, Drop)]
pub struct Relaxation {
    pub relaxed: Relaxed,
    pub left: u32,
}
