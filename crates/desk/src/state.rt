// What stands between two calls, in words as the C face keeps them: head, table, output, how much of it is lent; and what the last call told.
#[derive(Clone, Copy)]
pub struct Desk {
    pub head: [u64; 5],
    pub links: [u64; 15],
    pub out: [u8; 180],
    pub lent: usize,
    pub number: u8,
    pub told: [u64; 10],
    pub made: u64,
}

impl Desk {
    // Sixty octets for each link.
    pub const OUTPUT: usize = 180;

    // The output's octets at first, which no frame begins or ends with.
    const UNTOUCHED: u8 = 0xEE;

    // Before the first fresh head there is a refused one.
    pub fn first() -> Desk {
        Desk {
            head: [0; 5],
            links: [0; 15],
            out: [Desk::UNTOUCHED; 180],
            lent: Desk::OUTPUT,
            number: 0,
            told: [0; 10],
            made: 0,
        }
    }
}
