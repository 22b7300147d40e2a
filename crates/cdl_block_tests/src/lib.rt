//! The tests of decimals, kinds and blocks, by public calls alone.
#![tactic(auto)]

#[cfg(test)]
mod blocks;
#[cfg(test)]
mod decimal;
#[cfg(test)]
mod histories;
#[cfg(test)]
mod kinds;
#[cfg(test)]
mod sound;
#[cfg(test)]
mod values;
