//! Tests of public calls by their values and texts: one crate, so that each of theirs is proved once.
#![tactic(auto)]

#[cfg(test)]
mod dates;
#[cfg(test)]
mod deadlines;
#[cfg(test)]
mod happenings;
#[cfg(test)]
mod known;
#[cfg(test)]
mod literals;
#[cfg(test)]
mod log_lines;
#[cfg(test)]
mod outside;
#[cfg(test)]
mod parts;
#[cfg(test)]
mod story;
#[cfg(test)]
mod strata;
#[cfg(test)]
mod tokens;
