//! Tests of cdl_source and cdl_pool by their public calls.
#![tactic(auto)]

#[cfg(test)]
mod outside;
#[cfg(test)]
mod region;
#[cfg(test)]
mod words;
