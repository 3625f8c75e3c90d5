// Examples of every layer as tests, apart from the crates that they try so that those are proved once; and the operating modes of
// the card, row by row as the maker of the memory tabulates them, wherever the card agrees with the table.
#![tactic(auto)]

#[cfg(test)]
mod answers_trials;
#[cfg(test)]
mod bench_trials;
#[cfg(test)]
mod language_trials;
#[cfg(test)]
mod lines_trials;
#[cfg(test)]
mod maps_trials;
#[cfg(test)]
mod mode_byte_writes;
#[cfg(test)]
mod mode_reads;
#[cfg(test)]
mod mode_writes;
#[cfg(test)]
mod said;
#[cfg(test)]
mod stores_trials;
#[cfg(test)]
mod trial;
