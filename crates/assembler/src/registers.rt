// An instruction's registers.

/// a, b and c, and the bytes of the tokens after them.
#[derive(Clone, Copy, Debug)]
pub struct Registers<'a> {
    pub a: u8,
    pub b: u8,
    pub c: u8,
    pub rest: &'a [u8],
}
