#![tactic(auto)]

// Tests of the table: refusals with their values, limits, names, walks and bytes; and of feature sources.
#[cfg(test)]
mod adding;
#[cfg(test)]
mod calls;
#[cfg(test)]
mod files;
#[cfg(test)]
mod limits;
#[cfg(test)]
mod names;
#[cfg(test)]
mod nothing;
#[cfg(test)]
mod player;
#[cfg(test)]
mod sources;
#[cfg(test)]
mod walks;
