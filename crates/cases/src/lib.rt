// Worked cases of the crates, as tests.
#![tactic(auto)]

#[cfg(test)]
mod command_lines;
#[cfg(test)]
mod copies;
#[cfg(test)]
mod counts;
#[cfg(test)]
mod ends;
#[cfg(test)]
mod faults;
#[cfg(test)]
mod heads;
#[cfg(test)]
mod lists;
#[cfg(test)]
mod periods;
#[cfg(test)]
mod recorded;
#[cfg(test)]
mod replies;
#[cfg(test)]
mod rings;
#[cfg(test)]
mod row_macros;
#[cfg(test)]
mod rows;
#[cfg(test)]
mod runs;
#[cfg(test)]
mod sheets;
#[cfg(test)]
mod strategies;
#[cfg(test)]
mod tables;
