#![tactic(auto)]

// Examples for the code books. The standard book is held to the published tables, typed here once more, byte by byte.
#[cfg(test)]
mod sheet_books;
#[cfg(test)]
mod standard;
