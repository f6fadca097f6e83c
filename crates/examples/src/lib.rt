// Examples of all crates, as tests. They stand in a crate of their own, so that no crate is proved twice for them.
#![tactic(auto)]

#[cfg(test)]
mod auditing;
#[cfg(test)]
mod drawn_arrays;
#[cfg(test)]
mod foundings;
#[cfg(test)]
mod kinds;
#[cfg(test)]
mod parities_at;
#[cfg(test)]
mod rebuilding;
#[cfg(test)]
mod reports;
#[cfg(test)]
mod routes;
#[cfg(test)]
mod running;
#[cfg(test)]
mod shapes;
#[cfg(test)]
mod tables;
#[cfg(test)]
mod texts;
#[cfg(test)]
mod updating;
#[cfg(test)]
mod whole_columns;
