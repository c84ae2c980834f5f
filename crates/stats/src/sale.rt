// What the statistics read of a trade report.

// A sale, as a market center reports it.
#[derive(Clone, Copy, PartialEq, Eq, Debug)]
pub struct Sale {
    pub condition: [u8; 4],
    pub price: u64,
    pub volume: u32,
}

// A sale with the line that reported it. Each market center has a line to the processor, with a number from 0 to 15;
// a sheet keeps the number that it is given.
#[derive(Clone, Copy, PartialEq, Eq, Debug)]
pub struct LineSale {
    pub line: u8,
    pub sale: Sale,
}

// A consolidated last: the price, and the line that it came from.
#[derive(Clone, Copy, PartialEq, Eq, Debug)]
pub struct LastSale {
    pub price: u64,
    pub line: u8,
}
