#![tactic(auto)]

// Hand-made day sheets, and what each is read as.
#[cfg(test)]
mod expect;
#[cfg(test)]
mod field_layer;
#[cfg(test)]
mod lent_tables;
#[cfg(test)]
mod line_layer;
#[cfg(test)]
mod market;
#[cfg(test)]
mod sheet_layer;
